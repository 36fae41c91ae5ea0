// The field at the end of a batch.
ghost use Rattle.std.specs.Prelude.{◌≡◌};
ghost use Rattle.wire.specs.Encode.{encode_field};
ghost use Rattle.wire.specs.Output.{with_bytes};
ghost use Rattle.calls.specs.ChangeList.{end_field};

use wire::output::Output;
use wire::tags::Tag;

// The end of a batch.
pub fn put_end(out: &mut Output)
    ensures { out.new ≡ with_bytes out.old (encode_field end_field) }
{
    out.put_head(Tag::End.number(), 0);
}
