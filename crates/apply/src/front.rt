// Field 1 of the next volume: root bits are set, all else is kept.
ghost use Rattle.std.specs.Prelude.{◌≡◌, true, ◌<◌};
ghost use Rattle.wire.specs.Output.{with_bytes};
ghost use Rattle.calls.specs.ChangeList.{change_laid_out};
ghost use Rattle.reader.specs.Heads.{head_in};
ghost use Rattle.wire.specs.FieldsFound.{field_in};
ghost use Rattle.apply.specs.Roots.{roots_after, NamesRoot, after_field, front_bytes};

use reader::head::Head;
use reader::roots::Root;
use reader::{head, roots};
use wire::fields::{Field, Fields};
use wire::le;
use wire::output::Output;
use wire::tags::Tag;

// What one field of a change list makes of the root bits. The layout of the change list shows what a field 70 holds.
// The roots are a byte, as `Head` holds them.
#[tactic(auto, using(crate::proofs::RootLaws::root_field))]
fn after_field(roots: u8, field: Field) -> u8
    requires { NamesRoot (field_in field) }
    ensures { result ≡ after_field roots (field_in field.entry) }
{
    if field.tag != Tag::Root.number() {
        return roots;
    }
    match Root::try_from(le::le8(field.body, 0)) {
        Ok(root) => roots::with_root(roots, root),
        Err(_) => roots,
    }
}

// The root bits after a change list, whose layout was tested.
// The roots are a byte, as `Head` holds them.
pub fn roots_after(change: &[u8], roots: u8) -> u8
    requires { change_laid_out change.now ≡ true }
    ensures same { result ≡ roots_after change.now roots }
    ensures low { roots < 8 → result < 8 }
{
    Fields::of(change).fold(roots, after_field)
}

// Field 1: the volume's head with other root bits.
// The roots are a byte, as `Head` holds them.
#[tactic(auto, unfolding(crate::specs::Roots::front_bytes, calls::specs::Apply::with_roots))]
pub fn put_front(out: &mut Output, h: Head, roots: u8)
    ensures { out.new ≡ with_bytes out.old (front_bytes (head_in h) roots) }
{
    head::put_head_field(out, Head { roots, ..h });
}
