// Field 1: the head of a call list.
ghost use Rattle.std.specs.Prelude.{◌≡◌, ◌+◌, ◌≤◌, length, take, drop};
ghost use Rattle.wire.specs.Encode.{encode_field};
ghost use Rattle.wire.specs.Output.{with_bytes};
ghost use Rattle.calls.specs.CallList.{head_of, head_body, head_ok};
ghost use Rattle.reader.specs.CallFields.{head_within};
ghost use Rattle.reader.specs.Heads.{call_byte, head_in, head_sizes};

use crate::call_kinds::Call;
use wire::fields::Fields;
use wire::kinds::FileSector;
use wire::output::Output;
use wire::tags::Tag;
use wire::{kinds, le};

// The parts of a head. `call` and `option` are bytes and no enums: a head is read before `head_ok` tests the call, and the option is tested only by refusal 5.
#[derive(Clone, Copy, Drop)]
pub struct Head {
    pub call: u8,
    pub bucket_sectors: u16,
    pub block_sectors: u16,
    pub option: u8,
    pub roots: u8,
    pub reserve: u32,
    pub batch: u32,
    pub journal: u64,
    pub inode: u64,
    pub base: FileSector,
}

// The call byte of a list's first field 1, wherever that stands; 0 where there is none.
pub fn call_byte(s: &[u8]) -> u8
    ensures { result ≡ call_byte s.now }
{
    Fields::of(s)
        .find(|field| field.tag == Tag::Head.number())
        .map_or(0, |field| field.body.first().copied().unwrap_or(0))
}

// The head whose body starts at a place of a list. The length of field 1 shows the bound.
#[tactic(auto, using(crate::proofs::HeadLaws::head_at_lem))]
pub fn read_head(s: &[u8], at: usize) -> Head
    requires { at + 39 ≤ length s.now }
    ensures { head_in result ≡ head_of (take 39 (drop at s.now)) }
{
    Head {
        call: le::le8(s, at),
        bucket_sectors: le::le16(s, at + 1),
        block_sectors: le::le16(s, at + 3),
        option: le::le8(s, at + 5),
        roots: le::le8(s, at + 6),
        reserve: le::le32(s, at + 7),
        batch: le::le32(s, at + 11),
        journal: le::le64(s, at + 15),
        inode: le::le64(s, at + 23),
        base: FileSector(le::le64(s, at + 31)),
    }
}

// Whether a head names a call, and no root that there is not.
pub fn head_ok(h: Head) -> bool
    ensures { result ≡ head_ok (head_in h) }
{
    Call::try_from(h.call).is_ok() && h.roots < 8
}

// Whether a head is within FORMAT.md's limits.
pub fn head_within(h: Head) -> bool
    ensures { result ≡ head_within (head_in h) }
{
    h.reserve <= 65536 && kinds::base_in_range(h.base)
}

// The first five parts of a head.
fn put_sizes(out: &mut Output, h: Head)
    ensures { out.new ≡ with_bytes out.old (head_sizes (head_in h)) }
{
    out.put_u8(h.call);
    out.put_u16(h.bucket_sectors);
    out.put_u16(h.block_sectors);
    out.put_u8(h.option);
    out.put_u8(h.roots);
}

// Field 1.
pub fn put_head_field(out: &mut Output, h: Head)
    ensures { out.new ≡ with_bytes out.old (encode_field (record { tag = 1; body = head_body (head_in h) })) }
{
    out.put_head(Tag::Head.number(), 39);
    put_sizes(out, h);
    out.put_u32(h.reserve);
    out.put_u32(h.batch);
    out.put_u64(h.journal);
    out.put_u64(h.inode);
    out.put_file_sector(h.base);
}
