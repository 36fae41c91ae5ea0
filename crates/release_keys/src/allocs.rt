// The freed buckets, each with its sum and its alloc key: buckets and keys ascend, so that one walk over the keys finds those of all buckets.
ghost use Rattle.std.specs.Prelude.{◌≡◌, true, false, ◌++◌, ◌<◌, ◌≤◌, length, get_or, take, drop, map, replicate};
ghost use Rattle.std.specs.Int.NonZero.{non_zero_u64_get};
ghost use Rattle.wire.specs.Order.{pos_less};
ghost use Rattle.calls.specs.CallList.{keys_ascend};
ghost use Rattle.calls.specs.Trees.{lookup};
ghost use Rattle.reader.specs.ListedKeys.{keys_listed};
ghost use Rattle.reader.specs.Located.{no_key};
ghost use Rattle.release_sums.specs.SumsLeft.{sums_left, SameTable};
ghost use Rattle.release_keys.specs.Given.{RequestsChecked};
ghost use Rattle.release_keys.specs.Places.{PlaceOf};
ghost use Rattle.release_keys.specs.Listed.{row_sum, PlacesOf, SumsAscend};
ghost use Rattle.release_keys.specs.Skipping.{KeysSkipped};

use crate::table::{FreedBucket, FreedTable};
use reader::key::ListedKey;
use reader::listed_keys::Keys;
use reader::read_list::ReadList;
use release_sums::requests::Freeds;
use release_sums::sums::{ClearedScratch, Sums};
use std::num::NonZero;
use wire::bpos::Bpos;
use wire::{bpos, positions};

// Keys that ascend. The reader's table shows it of those of tree 4.
#[derive(Clone, Copy, Drop)]
struct AscendingKeys<'a> {
    keys: Keys<'a>,
    ghost ascend: { keys_ascend (keys_listed keys) ≡ true },
}

// Keys that ascend, as such. Not where the loop is that takes them: of a struct that its own function makes, a loop's invariant sees the fields alone.
fn ascending(keys: Keys) -> AscendingKeys
    requires { keys_ascend (keys_listed keys) ≡ true }
    ensures { result.keys ≡ keys.entry }
{
    AscendingKeys { keys }
}

// The keys from the first one on that does not stand before a position.
fn skip_below<'k>(ascending: AscendingKeys<'k>, p: Bpos) -> AscendingKeys<'k>
    ensures { KeysSkipped ascending.entry.keys p result.keys }
{
    let keys = ascending.keys;
    let n = keys.skip_while(0, |k: ListedKey| bpos::pos_less(k.pos(), p));
    AscendingKeys { keys: keys.from(n) }
}

// The place of the key at a position. `skip_below` shows that no key stands before it.
fn place_here(ascending: AscendingKeys, p: Bpos) -> Option<u32>
    requires { 0 < length ascending.keys.places.now → pos_less (get_or (keys_listed ascending.keys) 0 no_key).pos p ≡ false }
    ensures { PlaceOf ascending.entry.keys.list.now result (lookup p (keys_listed ascending.entry.keys)) }
{
    let key = ascending.keys.get(0)?;
    bpos::pos_same(key.pos(), p).then_some(key.at as u32)
}

// Lists the sums that are taken out of the table, each with the place of its bucket's alloc key, in the front of a slice, and gives how many they are. `list_freed` shows what is required.
pub fn list_sums(sums: &mut Sums, alloc: Keys, buckets: &mut [FreedBucket]) -> usize
    requires sums { (length (sums_left sums.old) ≤ length buckets.old) × SumsAscend (sums_left sums.old) }
    requires ascend { keys_ascend (keys_listed alloc) ≡ true }
    ensures table { SameTable sums.old sums.new × (take 65536 sums.new.sums.now ≡ replicate 65536 0) }
    ensures many { result ≡ length (sums_left sums.old) }
    ensures listed { (map row_sum (take result buckets.new) ≡ sums_left sums.old) × PlacesOf alloc.entry.list.now (keys_listed alloc.entry) (take result buckets.new) }
{
    let mut keys = ascending(alloc);
    let mut n: usize = 0;
    // No heap: the table is the caller's, and `n` counts its front. A lent `ArrayVec` was tried, and proves, but its `new` copies the table's 24 KiB: 351,600 instructions for 324,400 in a release of one piece, the row that is nearest to its aim (docs/BENCHMARKS.md).
    while let Some(sum) = sums.next() {
        let p = positions::alloc_at(sum.bucket);
        keys = skip_below(keys, p);
        buckets[n] = FreedBucket {
            bucket: sum.bucket,
            sectors: sum.sectors,
            place: place_here(keys, p),
        };
        n += 1;
    }
    n
}

// The freed buckets of the requests, in the front of a slice; the scratch is left cleared. The reader and refusals 4 and 14 show what is required.
pub fn list_freed<'a>(
    read: ReadList<'a>,
    bucket_sectors: NonZero<u64>,
    scratch: &mut ClearedScratch,
    buckets: &'a mut [FreedBucket; 1024],
) -> FreedTable<'a>
    requires { RequestsChecked read × (keys_ascend (keys_listed read.alloc) ≡ true) × (non_zero_u64_get bucket_sectors ≡ read.head.bucket_sectors) }
    ensures same_reference { scratch.new.sums.ghost_name ≡ scratch.old.sums.ghost_name }
    ensures tabled { (result.read ≡ read.entry) × (scratch.new.sums.now ≡ replicate 65536 0 ++ drop 65536 scratch.old.sums.now) }
{
    let lent = &mut *scratch.sums;
    let mut sums = Sums::new(lent);
    sums.add_up(Freeds::of(&read), bucket_sectors);
    let n = list_sums(&mut sums, read.alloc, buckets);
    FreedTable {
        read,
        bucket_sectors,
        buckets: &buckets[..n],
    }
}
