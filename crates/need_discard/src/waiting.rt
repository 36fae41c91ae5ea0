// The need-discard keys of a list, and the one that stands for a bucket: by a table by bucket, or by a search through the keys where there are at most
// 16 of them for at most 64 alloc keys, since to clear the table, 128 KiB, costs as much as a thousand comparisons. The table is filled in one pass.
ghost use Rattle.std.specs.Prelude.{◌≡◌, true, ◌≤◌, ◌<◌, length, replicate};
ghost use Rattle.wire.specs.Bytes.{All};
ghost use Rattle.wire.specs.Kinds.{bucket_in_range};
ghost use Rattle.calls.specs.Discard.{waiting_key};
ghost use Rattle.reader.specs.ListedKeys.{key_listed, keys_listed};
ghost use Rattle.need_discard.specs.Kept.{NeedKept};
ghost use Rattle.need_discard.specs.Table.{is_of_bucket, found, TableEntries, wait_noted};

use reader::key::ListedKey;
use reader::listed_keys::Keys;
use std::marker::Model;
use wire::bpos::Bpos;
use wire::key_types::KeyType;
use wire::kinds::Bucket;

// The key at place i takes the entry of its bucket, so that the last stands. The limits show the bounds.
#[tactic(auto, unfolding(crate::specs::Table::wait_noted))]
fn note_key(table: &mut [u16; 65536], key: &ListedKey, i: usize)
    requires { NeedKept (key_listed key.now) × (i < 4096) }
    ensures { table.new ≡ wait_noted table.old (key_listed key.now) i }
{
    if key.key_type() != KeyType::Set.number() {
        return;
    }
    let b = key.bucket();
    table[b.0 as usize] = (i + 1) as u16;
}

// Fills an empty table. The limits show what is asked of the keys.
// `Waiting` is the type that holds of its keys what is asked: it is asked only where one is made.
pub fn note_waiting(table: &mut [u16; 65536], keys: &Keys)
    requires { All NeedKept (keys_listed keys.now) × (length keys.now.places.now ≤ 4096) × (table.old ≡ replicate 65536 0) }
    ensures { TableEntries (keys_listed keys.now) (keys_listed keys.now) table.new }
{
    for (i, key) in keys.iter().enumerate() {
        note_key(table, &key, i);
    }
}

// Whether a need-discard key names a bucket, which a key of another type than 25 does not.
fn names_bucket(key: &ListedKey, b: Bucket) -> bool
    ensures { result ≡ is_of_bucket (key_listed key.now) b }
{
    key.bucket() == b && key.key_type() == KeyType::Set.number()
}

// The last key that names a bucket, by a search through the keys from the last on.
fn search_key<'a>(keys: &Keys<'a>, b: Bucket) -> Option<ListedKey<'a>>
    ensures { found result ≡ waiting_key (keys_listed keys.now) b }
{
    keys.iter().rev().find(|key| names_bucket(key, b))
}

// The same, from a filled table. `Waiting` shows that it is filled, the limits the bucket's bound.
// No type shows it: one in range would be a second kind beside `Bucket`, and a bucket of a list may have any number.
fn table_key<'a>(keys: &Keys<'a>, table: &[u16; 65536], b: Bucket) -> Option<ListedKey<'a>>
    requires { TableEntries (keys_listed keys.now) (keys_listed keys.now) table.now × (bucket_in_range b ≡ true) }
    ensures { found result ≡ waiting_key (keys_listed keys.now) b }
{
    let i = (table[b.0 as usize] as usize).checked_sub(1)?;
    Some(keys.at(i))
}

// The need-discard keys of a list, and their table, where one is filled.
// An entry is a key's place, counted from 1, in two bytes, and 0 for none: an `Option`, of a `NonZero` too, takes four.
#[derive(Drop)]
pub struct Waiting<'a> {
    keys: Keys<'a>,
    table: Option<&'a [u16; 65536]>,
}

// They are seen as the keys.
impl<'a> Model for Waiting<'a> {
    ghost use Rattle.std.specs.Prelude.{List, IfSome};
    ghost use Rattle.wire.specs.Bytes.{All};
    ghost use Rattle.wire.specs.Keys.{Key};
    ghost use Rattle.reader.specs.ListedKeys.{keys_listed};
    ghost use Rattle.need_discard.specs.Kept.{NeedKept};
    ghost use Rattle.need_discard.specs.Table.{TableEntries};

    ghost Value = { List Key };

    ghost view = { λ w. keys_listed w.keys };

    ghost invariant = { λ w. All NeedKept (keys_listed w.keys) × IfSome w.table (λ table. TableEntries (keys_listed w.keys) (keys_listed w.keys) table.now) };
}

impl<'a> Waiting<'a> {
    ghost use Rattle.std.specs.Prelude.{not};
    ghost use Rattle.calls.specs.Lists.{is_none};
    ghost use Rattle.need_discard.specs.Table.{waits_of};

    // Few keys, with no table. The limits show what is asked of them.
    // `Waiting` is the type that holds of its keys what is asked: it is asked only where one is made.
    pub fn searched(keys: Keys<'a>) -> Waiting<'a>
        requires { All NeedKept (keys_listed keys) }
        ensures { result ≡ keys_listed keys.entry }
    {
        Waiting { keys, table: None }
    }

    // Keys with an empty table, which is filled. The limits show what is asked of the keys.
    // `Waiting` is the type that holds of its keys what is asked: it is asked only where one is made.
    pub fn tabled(keys: Keys<'a>, table: &'a mut [u16; 65536]) -> Waiting<'a>
        requires { All NeedKept (keys_listed keys) × (length keys.places.now ≤ 4096) × (table.old ≡ replicate 65536 0) }
        ensures { result ≡ keys_listed keys.entry }
    {
        note_waiting(table, &keys);
        Waiting {
            keys,
            table: Some(table),
        }
    }

    // Where the need-discard key of a bucket stands, if it has one. The limits show the bound.
    // No type shows it: one in range would be a second kind beside `Bucket`, and a bucket of a list may have any number.
    pub fn waiting_at(&self, b: Bucket) -> Option<Bpos>
        requires { bucket_in_range b ≡ true }
        ensures { result ≡ waits_of (waiting_key self.now b) }
    {
        let key = match self.table {
            Some(table) => table_key(&self.keys, table, b)?,
            None => search_key(&self.keys, b)?,
        };
        Some(key.pos())
    }

    // Whether a need-discard key names a bucket. The limits show the bound.
    // No type shows it: one in range would be a second kind beside `Bucket`, and a bucket of a list may have any number.
    pub fn is_waiting(&self, b: Bucket) -> bool
        requires { bucket_in_range b ≡ true }
        ensures { result ≡ not (is_none (waiting_key self.now b)) }
    {
        self.waiting_at(b).is_some()
    }
}
