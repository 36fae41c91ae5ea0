// Tree 13: the backpointers of the extents.
ghost use Rattle.std.specs.Prelude.{◌≡◌, map};
ghost use Rattle.wire.specs.Encode.{encode, encode_field, key_field};
ghost use Rattle.calls.specs.Extents.{backpointer_key};
ghost use Rattle.calls.specs.Place.{placed_of};
ghost use Rattle.calls.specs.Answers.{read_call};
ghost use Rattle.reader.specs.Heads.{head_in};
ghost use Rattle.wire.specs.Output.{with_bytes};
ghost use Rattle.place_keys.specs.Plan.{Bounded, placed_in};

use crate::placed::Placed;
use crate::plan::Plan;
use format::backpointer;
use reader::head::Head;
use wire::key_types::KeyType;
use wire::keys::KeyHead;
use wire::output::Output;
use wire::positions;
use wire::trees::Tree;

// The backpointer of a piece's extent. `Plan::piece` shows what is asked of the piece.
pub fn put_backpointer(out: &mut Output, h: Head, p: Placed)
    requires { Bounded p }
    ensures { out.new ≡ with_bytes out.old (encode_field (key_field 13 (backpointer_key (head_in h) (placed_in p)))) }
{
    let extent = positions::extent_at(h.inode, p.end);
    let w = backpointer::backpointer(p.generation, p.piece.stored as u32, extent);
    let head = KeyHead::new(
        KeyType::Backpointer.number(),
        0,
        positions::backpointer_at(p.first),
    );
    out.put_words_key(Tree::Backpointers.tag(), head, &w);
}

// The backpointers of all pieces, in order.
pub fn put_backpointers(out: &mut Output, plan: &Plan)
    ensures { out.new ≡ with_bytes out.old (encode (map (key_field 13) (map (backpointer_key (head_in plan.now.head)) (placed_of (read_call plan.now.list.now))))) }
{
    for p in plan.placed() {
        put_backpointer(out, plan.head, p);
    }
}
