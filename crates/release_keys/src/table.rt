// The table of a release: the freed buckets, before refusals 15 to 19 and after them.
ghost use Rattle.std.specs.Prelude.{◌≡◌, map};
ghost use Rattle.std.specs.Int.NonZero.{non_zero_u64_get};
ghost use Rattle.calls.specs.Refusals.{verdict};
ghost use Rattle.calls.specs.Release.{bucket_refusal, freed_buckets};
ghost use Rattle.release_keys.specs.Given.{volume_in, requests_in, RequestsChecked};
ghost use Rattle.release_keys.specs.Tables.{FreedTables, RowHeld, RowsHeld};

use format::alloc;
use reader::key::ListedKey;
use reader::read_list::ReadList;
use release_sums::requests::Freeds;
use std::num::NonZero;
use wire::kinds::Bucket;

// A bucket of which something is freed, how many sectors of it, and the place of its alloc key, or none where it has none. The place takes eight bytes, where a `ListedKey` would name the list in each of the 1,024 and take 24 at least. Not a `BucketSum` and a place: each of its readers would go through the sum.
#[derive(Clone, Copy, Drop)]
pub struct FreedBucket {
    pub bucket: Bucket,
    pub sectors: u32,
    pub place: Option<u32>,
}

// The freed buckets of a list that was read, whose requests refusals 4 and 14 passed, and how many sectors a bucket has.
#[derive(Clone, Copy, Drop)]
pub struct FreedTable<'a> {
    pub read: ReadList<'a>,
    pub bucket_sectors: NonZero<u64>,
    pub buckets: &'a [FreedBucket],
    pub ghost same_sectors: { non_zero_u64_get bucket_sectors ≡ read.head.bucket_sectors },
    pub ghost checked: { RequestsChecked read },
    pub ghost tabled: { FreedTables read.alloc.list.now (volume_in read) (requests_in read) buckets.now },
}

// A table that refusals 15 to 19 passed.
#[derive(Clone, Copy, Drop)]
pub struct HeldTable<'a> {
    pub freed: FreedTable<'a>,
    pub ghost none_refuses: { verdict (map (bucket_refusal (volume_in freed.read) (requests_in freed.read)) (freed_buckets freed.read.head.bucket_sectors (requests_in freed.read))) ≡ 0 },
}

// A freed bucket of it: its alloc key is there, and it holds what is freed of it and no more than fits.
#[derive(Clone, Copy, Drop)]
pub struct HeldBucket<'a> {
    pub list: &'a [u8],
    pub bucket_sectors: NonZero<u64>,
    pub freed: FreedBucket,
    pub ghost held: { RowHeld list.now (non_zero_u64_get bucket_sectors) freed },
}

// Those of them that are left. An iterator of its own: a function that answers a map of a closure gets no proof yet, and so each of the four users would make the closure, and show what it requires.
#[derive(Drop)]
pub struct HeldLeft<'a> {
    pub list: &'a [u8],
    pub bucket_sectors: NonZero<u64>,
    pub buckets: &'a [FreedBucket],
    pub ghost held: { RowsHeld list.now (non_zero_u64_get bucket_sectors) buckets.now },
}

impl FreedBucket {
    ghost use Rattle.std.specs.Prelude.{ℕ, ◌≤◌, Some, None, IfSome, MatchOption};
    ghost use Rattle.reader.specs.KeyHere.{Whole};

    // Its alloc key in a list, if it has one, at a place of four bytes. The table shows that a whole key stands at its place.
    pub fn key<'a>(&self, list: &'a [u8]) -> Option<ListedKey<'a>>
        requires { (at : ℕ) → self.now.place ≡ Some at → Whole list.now at }
        ensures key { MatchOption result (self.now.place ≡ None) (λ k. (k.list.now ≡ list.now) × (self.now.place ≡ Some k.at)) }
        ensures fits { IfSome result (λ k. k.at ≤ 0xffff_ffff) }
    {
        let at = self.place?;
        Some(ListedKey {
            list,
            at: at as usize,
        })
    }
}

impl<'a> FreedTable<'a> {
    ghost use Rattle.release_sums.specs.FreedsOf.{freeds_of};

    // The requests.
    pub fn freeds(&self) -> Freeds<'a>
        ensures { freeds_of result ≡ requests_in self.now.read }
    {
        Freeds::of(&self.read)
    }
}

impl<'a> HeldTable<'a> {
    ghost use Rattle.release_keys.specs.HeldOf.{held_left, LeftOf};

    // The list that was read.
    pub fn read(&self) -> &ReadList<'a>
        ensures { result.now ≡ self.now.freed.read }
    {
        &self.freed.read
    }

    // The freed buckets, from the first on.
    pub fn iter(&self) -> HeldLeft<'a>
        ensures { (held_left result ≡ self.now.freed.buckets.now) × LeftOf self.now result }
    {
        HeldLeft {
            list: self.read().alloc.list,
            bucket_sectors: self.freed.bucket_sectors,
            buckets: self.freed.buckets,
        }
    }
}

impl<'a> HeldBucket<'a> {
    ghost use Rattle.std.specs.Prelude.{◌≤◌};
    ghost use Rattle.reader.specs.ListedKeys.{key_listed};
    ghost use Rattle.format.specs.Packing.{get};
    ghost use Rattle.format.specs.AllocV4.{gen, next_gen};
    ghost use Rattle.release_keys.specs.Tables.{row_key, row_dirty, row_emptied};

    // Its alloc key, at a place of four bytes.
    pub fn key(&self) -> ListedKey<'a>
        ensures key { key_listed result ≡ row_key self.now.list.now self.now.freed }
        ensures fits { result.at ≤ 0xffff_ffff }
    {
        self.freed.key(self.list).unwrap()
    }

    // How many sectors it holds.
    pub fn dirty(&self) -> u32
        ensures { result ≡ row_dirty self.now.list.now self.now.freed }
    {
        alloc::dirty_sectors(self.key().value(), 0)
    }

    // Whether all that it holds is freed.
    pub fn is_emptied(&self) -> bool
        ensures { result ≡ row_emptied self.now.list.now self.now.freed }
    {
        self.freed.sectors == self.dirty()
    }

    // Its generation after it is emptied.
    pub fn emptied_gen(&self) -> u8
        ensures { result ≡ next_gen (get gen (row_key self.now.list.now self.now.freed).value) }
    {
        alloc::next_gen(alloc::generation(self.key().value(), 0))
    }
}

impl<'a> Iterator for HeldLeft<'a> {
    ghost use Rattle.std.specs.Iterator.{item_count};
    ghost use Rattle.release_keys.specs.HeldOf.{held_left, HeldStepped};

    type Item = HeldBucket<'a>;

    ghost next_gives = { λ before held after. HeldStepped before held after };

    ghost remaining = { item_count held_left };

    // The next one, if one is left.
    fn next(&mut self) -> Option<HeldBucket<'a>> {
        let (first, others) = self.buckets.split_first()?;
        let held = HeldBucket {
            list: self.list,
            bucket_sectors: self.bucket_sectors,
            freed: *first,
        };
        self.buckets = others;
        Some(held)
    }
}
