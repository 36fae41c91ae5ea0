// A list that was read: its head, its keys and reserved buckets, and the places of its fields in the parts of a table.
ghost use Rattle.std.specs.Prelude.{◌≡◌, ℕ};
ghost use Rattle.reader.specs.Table.{between};
ghost use Rattle.reader.specs.Readings.{TableRead, TableKnown, KeysBetween, Read};

use crate::head::Head;
use crate::listed::Listed;
use crate::listed_keys::Keys;
use crate::reserved_buckets::ReservedBuckets;
use crate::table::Ends;

// A list that was read: its head, the places of all its fields, the keys of each tree, the reserved buckets, and the places of the requests.
#[derive(Clone, Copy, Drop)]
pub struct ReadList<'a> {
    pub list: &'a [u8],
    pub head: Head,
    pub places: &'a [u32],
    pub alloc: Keys<'a>,
    pub lru: Keys<'a>,
    pub freespace: Keys<'a>,
    pub need_discard: Keys<'a>,
    pub backpointers: Keys<'a>,
    pub gens: Keys<'a>,
    pub reserved: ReservedBuckets<'a>,
    pub requests: &'a [u32],
}

// The keys at the places of a part of a table.
fn keys_between<'a>(list: &'a [u8], table: &'a [u32], from: usize, to: usize) -> Keys<'a>
    requires { KeysBetween list.now table.now from to }
    ensures { (result.list.now ≡ list.now) × (result.places.now ≡ between from to table.now) }
{
    Keys {
        list,
        places: &table[from..to],
    }
}

// A list, its head and its table, cut where the places of each tag end. The reader shows what they are.
pub fn cut<'a>(list: &'a [u8], head: Head, table: &'a [u32], ends: Ends) -> ReadList<'a>
    requires { TableKnown list.now table.now head ends }
    ensures same { result.list.now ≡ list.now }
    ensures read { (call : ℕ) → TableRead call list.now table.now head ends → Read call result }
{
    ReadList {
        list,
        head,
        places: &table[..ends.requests],
        alloc: keys_between(list, table, 0, ends.alloc),
        lru: keys_between(list, table, ends.alloc, ends.lru),
        freespace: keys_between(list, table, ends.lru, ends.freespace),
        need_discard: keys_between(list, table, ends.freespace, ends.need_discard),
        backpointers: keys_between(list, table, ends.need_discard, ends.backpointers),
        gens: keys_between(list, table, ends.backpointers, ends.gens),
        reserved: Listed::new(list, &table[ends.gens..ends.reserved]),
        requests: &table[ends.reserved..ends.requests],
    }
}
