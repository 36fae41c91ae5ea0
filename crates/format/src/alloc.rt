// The alloc value: how a new one is made, and what freeing, emptying and discarding make of one that was read.
#![tactic(auto, using(crate::proofs::ValueLaws::get_at))]

ghost use Rattle.std.specs.Prelude.{◌≡◌, ◌+◌, ◌≤◌, length, drop};
ghost use Rattle.wire.specs.Numbers.{words_bytes};
ghost use Rattle.format.specs.Packing.{get};
ghost use Rattle.format.specs.AllocV4.{gen, data_type, dirty_sectors, io_time_write, new_alloc, with_dirty, next_gen, emptied_flags, emptied, discarded_flags, discarded};

use crate::data_types::DataType;
use wire::keys::Value;
use wire::le;

// The generation of the alloc value at a place of a list. The value's length shows the bound. Each of the four readers asks for no more of a value than its own member's end, as values that end sooner are read too.
// A list and a place, and no slice, as the functions of `le` have: of a slice each clause would say the same, and a caller with a place, as `gen_taken` of need_discard, would cut one.
pub fn generation(s: &[u8], at: usize) -> u8
    requires { at + 13 ≤ length s.now }
    ensures { result ≡ get gen (drop at s.now) }
{
    le::le8(s, at + 12)
}

// The data type of the value at a place. The value's length shows the bound. A byte and no `DataType`: a value that is read may have any of the header's types, or none.
pub fn data_type(s: &[u8], at: usize) -> u8
    requires { at + 15 ≤ length s.now }
    ensures { result ≡ get data_type (drop at s.now) }
{
    le::le8(s, at + 14)
}

// The dirty sectors of the value at a place. The value's length shows the bound.
pub fn dirty_sectors(s: &[u8], at: usize) -> u32
    requires { at + 20 ≤ length s.now }
    ensures { result ≡ get dirty_sectors (drop at s.now) }
{
    le::le32(s, at + 16)
}

// The write clock of the value at a place. The value's length shows the bound.
pub fn write_time(s: &[u8], at: usize) -> u64
    requires { at + 40 ≤ length s.now }
    ensures { result ≡ get io_time_write (drop at s.now) }
{
    le::le64(s, at + 32)
}

// The value of a bucket that data is placed in, as eight words.
pub fn new_alloc(journal: u64, generation: u8, dirty: u32, clock: u64) -> [u64; 8]
    ensures { words_bytes result ≡ new_alloc journal generation dirty clock }
{
    let g = generation as u64;
    let user = DataType::User.number() as u64;
    [
        journal,
        0x23 + (g << 32) + (g << 40) + (user << 48),
        dirty as u64,
        1,
        clock,
        0,
        0,
        0,
    ]
}

// The value after a part is freed: another dirty count. Refusal 16 shows that a freed bucket's alloc key is so long.
// `with_dirty`, `emptied` and `discarded` each ask for 56 bytes: a value is changed once, so that a type with the fact would be made for one call, and its making would ask for them.
#[tactic(auto, using(wire::proofs::AppendLaws::bytes_32), unfolding(crate::specs::AllocV4::with_dirty, crate::specs::Packing::store))]
pub fn with_dirty(v: &mut Value, dirty: u32)
    requires { 56 ≤ length v.old }
    ensures { v.new ≡ with_dirty dirty v.old }
{
    v.put(16, &dirty.to_le_bytes());
}

// The generation after this one.
#[tactic(auto, unfolding(crate::specs::AllocV4::next_gen))]
pub fn next_gen(generation: u8) -> u8
    ensures { result ≡ next_gen generation }
{
    generation.wrapping_add(1)
}

// The flags of an emptied bucket: the low byte without bit 1.
// Beside `discarded_flags`: one function that takes the mask would be `&` itself.
#[tactic(auto, using(crate::proofs::FlagLaws::flags_masked))]
fn emptied_flags(x: u32) -> u32
    ensures { result ≡ emptied_flags x }
{
    x & 0xfd
}

// The value after emptying, at a journal number. Refusal 16 shows that a freed bucket's alloc key is so long.
pub fn emptied(v: &mut Value, journal: u64)
    requires { 56 ≤ length v.old }
    ensures { v.new ≡ emptied journal v.old }
{
    let flags = emptied_flags(le::le32(v.as_slice(), 8));
    let g = next_gen(generation(v.as_slice(), 0));
    v.put(8, &flags.to_le_bytes());
    v.put(12, &[g]);
    v.put(13, &[g]);
    v.put(14, &[DataType::NeedDiscard.number()]);
    v.put(15, &[0]);
    v.put(16, &0u32.to_le_bytes());
    v.put(48, &journal.to_le_bytes());
}

// The flags of a discarded bucket: without bit 0.
#[tactic(auto, using(crate::proofs::FlagLaws::flags_masked))]
fn discarded_flags(x: u32) -> u32
    ensures { result ≡ discarded_flags x }
{
    x & !1
}

// The value after discard. A discard takes no key whose value is shorter.
#[tactic(auto, using(wire::proofs::AppendLaws::bytes_32), unfolding(crate::specs::AllocV4::discarded, crate::specs::Packing::store, crate::specs::Packing::get, wire::specs::Numbers::le_bytes))]
pub fn discarded(v: &mut Value)
    requires { 56 ≤ length v.old }
    ensures { v.new ≡ discarded v.old }
{
    let flags = discarded_flags(le::le32(v.as_slice(), 8));
    v.put(0, &0u64.to_le_bytes());
    v.put(8, &flags.to_le_bytes());
    v.put(14, &[DataType::Free.number()]);
    v.put(48, &0u64.to_le_bytes());
}
