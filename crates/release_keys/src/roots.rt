// Field 70.
ghost use Rattle.std.specs.Prelude.{◌≡◌, ◌&&◌, ◌++◌};
ghost use Rattle.wire.specs.Output.{with_bytes};
ghost use Rattle.calls.specs.Place.{root_missing, roots_if};
ghost use Rattle.change_fields.specs.FieldBytes.{roots_bytes};

use change_fields::root_fields;
use reader::roots::Root;
use wire::output::Output;

// The roots that emptied buckets want, if there are any, and that are missing: 12, then 14. The flag is the definition's own: `roots_if (wanted && ..)`. The roots are the head's byte, since a narrower type would ask more of callers.
pub fn put_roots(out: &mut Output, wanted: bool, roots: u8)
    ensures { out.new ≡ with_bytes out.old (roots_bytes (roots_if (wanted && root_missing roots 1) 12 ++ roots_if (wanted && root_missing roots 2) 14)) }
{
    if wanted {
        root_fields::put_missing(out, roots, Root::NeedDiscard);
        root_fields::put_missing(out, roots, Root::BucketGens);
    }
}
