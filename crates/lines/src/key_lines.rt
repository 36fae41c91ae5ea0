// The lines of keys: tree, type, inode, offset, size, value words.
ghost use Rattle.std.specs.Prelude.{◌≡◌, ◌≤◌, length};
ghost use Rattle.wire.specs.Keys.{key_of};
ghost use Rattle.wire.specs.Output.{with_bytes};
ghost use Rattle.lines.specs.Lines.{line, key_words};

use crate::{blanks, digits};
use wire::keys;
use wire::output::Output;

// The line of a key of a tree. The layout of a change list shows the bound.
pub fn put_key_line(out: &mut Output, tree: u8, body: &[u8])
    requires { 37 ≤ length body.now }
    ensures { out.new ≡ with_bytes out.old (line (key_words tree (key_of body.now))) }
{
    let pos = keys::pos_at(body, 0);
    digits::put_decimal(out, tree as u64);
    blanks::put_next_decimal(out, keys::type_at(body, 0) as u64);
    blanks::put_next_decimal(out, pos.inode);
    blanks::put_next_decimal(out, pos.offset);
    blanks::put_next_decimal(out, keys::size_at(body, 0) as u64);
    blanks::put_words(out, &body[37..]);
    out.put_u8(b'\n');
}
