// Tree 0: the extents of the pieces.
ghost use Rattle.std.specs.Prelude.{◌≡◌, map};
ghost use Rattle.wire.specs.Encode.{encode, encode_field, key_field};
ghost use Rattle.format.specs.Checksums.{option_byte};
ghost use Rattle.calls.specs.Extents.{extent_key};
ghost use Rattle.calls.specs.Place.{placed_of};
ghost use Rattle.calls.specs.Answers.{read_call};
ghost use Rattle.reader.specs.Heads.{head_in};
ghost use Rattle.wire.specs.Output.{with_bytes};
ghost use Rattle.place_keys.specs.Plan.{Bounded, placed_in};

use crate::placed::Placed;
use crate::plan::Plan;
use format::checksums::ChecksumOption;
use format::entries;
use format::entries::Storage;
use reader::head::Head;
use wire::key_types::KeyType;
use wire::keys::KeyHead;
use wire::output::Output;
use wire::positions;
use wire::trees::Tree;

// The extent of a piece: its checksum entry, if it has one, and its pointer. A plan holds the head's option, and `Plan::piece` shows what is asked of the piece.
// The head and its option apart, as a plan has them: of what reads a plan's head, this and `placement::put_rows` alone ask for the option too.
pub fn put_extent(out: &mut Output, h: Head, option: ChecksumOption, p: Placed)
    requires { (option_byte option ≡ h.option) × Bounded p }
    ensures { out.new ≡ with_bytes out.old (encode_field (key_field 0 (extent_key (head_in h) (placed_in p)))) }
{
    let piece = p.piece;
    let storage = Storage {
        stored: piece.stored as u64,
        file: piece.file as u64,
        kind: piece.kind as u64,
    };
    let v = entries::extent_words(
        option,
        storage,
        piece.checksum,
        entries::pointer(p.first, p.generation),
    );
    let head = KeyHead::new(
        KeyType::Extent.number(),
        piece.file as u32,
        positions::extent_at(h.inode, p.end),
    );
    out.put_words_key(Tree::Extents.tag(), head, v.as_slice());
}

// The extents of all pieces, in order.
pub fn put_extents(out: &mut Output, plan: &Plan)
    ensures { out.new ≡ with_bytes out.old (encode (map (key_field 0) (map (extent_key (head_in plan.now.head)) (placed_of (read_call plan.now.list.now))))) }
{
    for p in plan.placed() {
        put_extent(out, plan.head, plan.option, p);
    }
}
