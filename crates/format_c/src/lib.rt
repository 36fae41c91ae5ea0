// The functions of `format` for C, where tests compare what they write with the structs of the Linux headers. Numbers and byte slices come in, and kinds are made of
// them here. No exported function asks anything of its caller: a remainder brings each number into its range, and a value of a length that a change does not take is left as it is.
#![tactic(auto)]

ghost use Rattle.std.specs.Prelude.{◌≡◌, ◌+◌, ◌*◌, ◌%◌, ◌^◌, ◌≤◌, ◌&&◌, cond, leb, length, None, Some};
ghost use Rattle.wire.specs.Numbers.{words_bytes};
ghost use Rattle.wire.specs.Output.{Wrote};
ghost use Rattle.format.specs.Entries.{pointer, crc32, crc64};
ghost use Rattle.format.specs.AllocV4.{new_alloc, emptied, discarded};
ghost use Rattle.format.specs.Backpointer.{backpointer};
ghost use Rattle.format.specs.Gens.{with_gen};
ghost use Rattle.format.specs.Lru.{fragmentation};
ghost use Rattle.format_c.specs.Sized.{where_sized};

use format::entries::Storage;
use format::{alloc, backpointer, entries, gens, lru};
use std::num::NonZero;
use wire::bpos::Bpos;
use wire::keys::Value;
use wire::kinds::{Bucket, DeviceSector};
use wire::output::Output;

// The words of a struct at the front of a slice; the result says how many bytes they are.
fn put_struct(out: &mut [u8], words: &[u64]) -> usize
    requires { length words.now ≤ 8 }
    ensures { Wrote out.old 0 (8 * length words.now) (words_bytes words.now) out.new result }
{
    let mut front = Output::new(out);
    front.put_words(words);
    front.at
}

// A value that has so many bytes that it may be changed: from lo to 256.
fn sized(value: &[u8], lo: usize) -> Option<Value>
    ensures { result ≡ cond (leb lo (length value.now) && leb (length value.now) 256) (Some value.now) None }
{
    if !(lo..=256).contains(&value.len()) {
        return None;
    }
    Some(Value::new(value))
}

// How a piece is stored, of sizes from 1 to 128 and a kind below 16.
fn storage(stored: u64, file: u64, kind: u64) -> Storage
    ensures { (result.stored ≡ stored % 128 + 1) × (result.file ≡ file % 128 + 1) × (result.kind ≡ kind % 16) }
{
    Storage {
        stored: stored % 128 + 1,
        file: file % 128 + 1,
        kind: kind % 16,
    }
}

// struct bch_extent_ptr, of a sector below 2^44.
#[unsafe(no_mangle)]
pub extern "C" fn format_pointer(sector: u64, generation: u8) -> u64
    ensures { result ≡ pointer (record { 0 = sector % 2 ^ 44 }) generation }
{
    entries::pointer(DeviceSector(sector % 0x1000_0000_0000), generation)
}

// struct bch_extent_crc32, of sizes from 1 to 128 and types below 16.
#[unsafe(no_mangle)]
pub extern "C" fn format_crc32(stored: u64, file: u64, ctype: u64, kind: u64, checksum: u64) -> u64
    ensures { result ≡ crc32 (stored % 128 + 1) (file % 128 + 1) (ctype % 16) (kind % 16) checksum }
{
    entries::crc32(storage(stored, file, kind), ctype % 16, checksum)
}

// The first word of struct bch_extent_crc64, with the same ranges.
#[unsafe(no_mangle)]
pub extern "C" fn format_crc64(stored: u64, file: u64, ctype: u64, kind: u64) -> u64
    ensures { result ≡ crc64 (stored % 128 + 1) (file % 128 + 1) (ctype % 16) (kind % 16) }
{
    entries::crc64(storage(stored, file, kind), ctype % 16)
}

// struct bch_alloc_v4 of a bucket that data is placed in.
#[unsafe(no_mangle)]
pub extern "C" fn format_new_alloc(
    out: &mut [u8],
    journal: u64,
    generation: u8,
    dirty: u32,
    clock: u64,
) -> usize
    ensures { Wrote out.old 0 64 (new_alloc journal generation dirty clock) out.new result }
{
    put_struct(out, &alloc::new_alloc(journal, generation, dirty, clock))
}

// struct bch_alloc_v4 after emptying, at a journal number. A value that ends before byte 56, or has more than 256 bytes, is left alone.
// The three functions that change a value have these four lines each. One function that takes the change as a closure would have them once, but it needs a head of six lines
// (what the change asks of a value, and that it keeps the length) and a call with a contract in each of the three: thirteen lines and more for twelve.
#[unsafe(no_mangle)]
pub extern "C" fn format_emptied(value: &mut [u8], journal: u64)
    ensures { value.new ≡ where_sized 56 256 (emptied journal) value.old }
{
    if let Some(mut v) = sized(value, 56) {
        alloc::emptied(&mut v, journal);
        value.copy_from_slice(v.as_slice());
    }
}

// struct bch_alloc_v4 after discard. A value that ends before byte 56, or has more than 256 bytes, is left alone.
#[unsafe(no_mangle)]
pub extern "C" fn format_discarded(value: &mut [u8])
    ensures { value.new ≡ where_sized 56 256 discarded value.old }
{
    if let Some(mut v) = sized(value, 56) {
        alloc::discarded(&mut v);
        value.copy_from_slice(v.as_slice());
    }
}

// struct bch_backpointer of an extent.
#[unsafe(no_mangle)]
pub extern "C" fn format_backpointer(
    out: &mut [u8],
    generation: u8,
    stored: u32,
    inode: u64,
    offset: u64,
    snapshot: u32,
) -> usize
    ensures { Wrote out.old 0 32 (backpointer generation stored (record { inode = inode; offset = offset; snapshot = snapshot })) out.new result }
{
    let extent = Bpos {
        inode,
        offset,
        snapshot,
    };
    put_struct(out, &backpointer::backpointer(generation, stored, extent))
}

// struct bch_bucket_gens with a bucket's generation. A value of another length than 256 bytes is left alone.
#[unsafe(no_mangle)]
pub extern "C" fn format_with_gen(value: &mut [u8], bucket: u64, generation: u8)
    ensures { value.new ≡ where_sized 256 256 (with_gen (record { 0 = bucket }) generation) value.old }
{
    if let Some(mut v) = sized(value, 256) {
        gens::with_gen(&mut v, Bucket(bucket), generation);
        value.copy_from_slice(v.as_slice());
    }
}

// The index of fragmentation, where a bucket has 1 to 65,535 sectors.
#[unsafe(no_mangle)]
pub extern "C" fn format_fragmentation(dirty: u32, sectors: u64) -> u64
    ensures { result ≡ fragmentation dirty (sectors % 65535 + 1) }
{
    lru::fragmentation(dirty, NonZero::<u64>::MIN.saturating_add(sectors % 65535))
}
