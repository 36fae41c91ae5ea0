// Field 70.
ghost use Rattle.std.specs.Prelude.{◌≡◌, [], ◌∷◌};
ghost use Rattle.wire.specs.Output.{with_bytes};
ghost use Rattle.calls.specs.Place.{root_missing, roots_if};
ghost use Rattle.calls.specs.Apply.{root_bit};
ghost use Rattle.reader.specs.Roots.{root_id};
ghost use Rattle.change_fields.specs.FieldBytes.{roots_bytes};

use reader::roots;
use reader::roots::Root;
use wire::output::Output;
use wire::tags::Tag;

// A root, by its id.
// A byte and no `Root`: a narrower type would ask more of callers.
pub fn put_root(out: &mut Output, id: u8)
    ensures { out.new ≡ with_bytes out.old (roots_bytes (id ∷ [])) }
{
    out.put_head(Tag::Root.number(), 1);
    out.put_u8(id);
}

// A root, where it is missing.
// The roots are the head's byte, since a narrower type would ask more of callers.
pub fn put_missing(out: &mut Output, roots: u8, root: Root)
    ensures { out.new ≡ with_bytes out.old (roots_bytes (roots_if (root_missing roots (root_bit (root_id root))) (root_id root))) }
{
    if roots::is_missing(roots, root) {
        put_root(out, root.id());
    }
}
