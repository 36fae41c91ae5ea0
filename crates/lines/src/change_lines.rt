// The lines of a change list, a line for each field.
ghost use Rattle.std.specs.Prelude.{◌≡◌, true};
ghost use Rattle.wire.specs.Output.{with_bytes};
ghost use Rattle.calls.specs.ChangeList.{change_laid_out};
ghost use Rattle.reader.specs.Bodies.{change_field_ok};
ghost use Rattle.lines.specs.Lines.{line, field_words, change_lines};

use crate::{key_lines, other_lines};
use wire::fields::Fields;
use wire::le;
use wire::output::Output;
use wire::tags::Tag;

// The line of a field, by its tag. The layout of a change list shows the shape, and that the tag has a name; each that is not named here is a tree's.
// A tag and a body and no `Field`: each is read alone, and `put_key_line` takes them so.
fn put_line(out: &mut Output, tag: u8, body: &[u8])
    requires { change_field_ok (record { tag = tag; body = body.now }) ≡ true }
    ensures { out.new ≡ with_bytes out.old (line (field_words (record { tag = tag; body = body.now }))) }
{
    match Tag::try_from(tag).unwrap() {
        Tag::Root => other_lines::put_named(out, b"root", le::le8(body, 0) as u64),
        Tag::Taken => other_lines::put_named(out, b"taken", le::le32(body, 0) as u64),
        Tag::Spot => other_lines::put_placed(out, body),
        Tag::Row => other_lines::put_row(out, body),
        Tag::Sectors => other_lines::put_named(out, b"sectors", le::le64(body, 0)),
        Tag::Unreserved => other_lines::put_named(out, b"unreserved", le::le32(body, 0) as u64),
        Tag::End => out.put_slice(b"end\n"),
        _ => key_lines::put_key_line(out, tag, body),
    }
}

// The lines of a change list. An accepted call wrote it, or `check_change` tested it.
pub fn put_lines(out: &mut Output, change: &[u8])
    requires { change_laid_out change.now ≡ true }
    ensures { out.new ≡ with_bytes out.old (change_lines change.now) }
{
    for field in Fields::of(change) {
        put_line(out, field.tag, field.body);
    }
}
