// The generation records: a table of where each stands.
ghost use Rattle.std.specs.Prelude.{◌≡◌, ◌≤◌, true, eqb, replicate};
ghost use Rattle.wire.specs.Kinds.{bucket_in_range};
ghost use Rattle.reader.specs.KeyHere.{keys_here};
ghost use Rattle.reader.specs.ListedKeys.{key_listed};
ghost use Rattle.gens.specs.Records.{record_noted, RecordsFound};

use reader::key::ListedKey;
use reader::listed_keys::Keys;
use wire::key_types::KeyType;
use wire::kinds::Bucket;

// The keys of tree 14, and a table of the records among them: entry o is the place of that at inode 0, offset o, or 0.
// No heap: the table stands in a frame, with four bytes for a place, where an `Option`, of a `NonZero` too, takes eight.
#[derive(Drop)]
pub struct Records<'a> {
    pub gens: Keys<'a>,
    pub table: [u32; 256],
    pub ghost found: { RecordsFound gens.list.now (keys_here gens.list.now gens.places.now) table },
}

// Whether a key has the type of a record.
pub fn is_record(key: ListedKey) -> bool
    ensures { result ≡ eqb (key_listed key.entry).type 30 }
{
    key.key_type() == KeyType::BucketGens.number()
}

// Notes a key whose position is one of a record: its place, or 0 where it is of another type. The table of places shows that its place has four bytes.
#[tactic(auto, unfolding(crate::specs::Records::record_noted))]
fn note_record(key: ListedKey, table: &mut [u32; 256])
    requires { key.at ≤ 0xffff_ffff }
    ensures { table.new ≡ record_noted key.entry.at (key_listed key.entry) table.old }
{
    let p = key.pos();
    if p.inode != 0 || p.snapshot != 0 || 256 <= p.offset {
        return;
    }
    table[p.offset as usize] = if is_record(key) { key.at as u32 } else { 0 };
}

// Notes all keys in a table of zeros, the last of them first, so that the first at a position stands. `Records::of` shows what is asked.
fn fill_table(gens: Keys, table: &mut [u32; 256])
    requires { table.old ≡ replicate 256 0 }
    ensures { RecordsFound gens.entry.list.now (keys_here gens.entry.list.now gens.entry.places.now) table.new }
{
    for key in gens.iter().rev() {
        note_record(key, table);
    }
}

impl<'a> Records<'a> {
    ghost use Rattle.std.specs.Prelude.{IfSome};
    ghost use Rattle.calls.specs.Generations.{gen_record};
    ghost use Rattle.reader.specs.ListedKeys.{keys_listed};
    ghost use Rattle.gens.specs.Records.{record_listed};

    // The records among the keys of tree 14.
    pub fn of(gens: Keys<'a>) -> Records<'a>
        ensures { result.gens ≡ gens.entry }
    {
        let mut table = [0u32; 256];
        fill_table(gens, &mut table);
        Records { gens, table }
    }

    // A bucket's record, if there is one, at a place of four bytes. The limits show the bound.
    // No type shows it: one in range would be a second kind beside `Bucket`, and a bucket of a list may have any number.
    pub fn record_of(&self, b: Bucket) -> Option<ListedKey<'a>>
        requires { bucket_in_range b ≡ true }
        ensures record { record_listed result ≡ gen_record (keys_listed self.now.gens) b }
        ensures fits { IfSome result (λ k. k.at ≤ 0xffff_ffff) }
    {
        match self.table[(b.0 / 256) as usize] {
            0 => None,
            at => Some(ListedKey {
                list: self.gens.list,
                at: at as usize,
            }),
        }
    }
}
