// The backpointers of the pieces that are released.
ghost use Rattle.std.specs.Prelude.{◌≡◌, map};
ghost use Rattle.wire.specs.Output.{with_bytes};
ghost use Rattle.wire.specs.Positions.{backpointer_at};
ghost use Rattle.calls.specs.Trees.{deletion};
ghost use Rattle.change_fields.specs.FieldBytes.{keys_bytes};
ghost use Rattle.release_keys.specs.Given.{requests_in};

use crate::table::FreedTable;
use change_fields::new_keys;
use wire::output::Output;
use wire::positions;
use wire::trees::Tree;

// Tree 13: a deletion for each request, in their order.
pub fn put_deletions(out: &mut Output, table: &FreedTable)
    ensures { out.new ≡ with_bytes out.old (keys_bytes 13 (map (λ x. deletion (backpointer_at x.first)) (requests_in table.now.read))) }
{
    for r in table.freeds().iter() {
        new_keys::put_deletion(
            out,
            Tree::Backpointers.tag(),
            positions::backpointer_at(r.first),
        );
    }
}
