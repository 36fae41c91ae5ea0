// Which alloc keys are discarded.
ghost use Rattle.std.specs.Prelude.{◌≡◌, ◌+◌, ◌≤◌, length, take, drop};
ghost use Rattle.wire.specs.Bytes.{All};
ghost use Rattle.calls.specs.Discard.{gen_taken, is_discarded};
ghost use Rattle.reader.specs.ListedKeys.{key_listed, keys_listed};
ghost use Rattle.need_discard.specs.Kept.{AllocKept};
ghost use Rattle.need_discard.specs.Chosen.{need_trees, is_value_taken, discarded_from, places_discarded};

use crate::waiting::Waiting;
use format::alloc;
use format::data_types::DataType;
use reader::key::ListedKey;
use reader::listed_keys::Keys;
use wire::key_types::KeyType;
use wire::positions;

// Whether a waiting bucket is taken: its generation is below 16. The value's length shows the bound.
// A slice and an offset, as `alloc::generation` takes them.
#[tactic(auto, unfolding(calls::specs::Discard::gen_taken))]
pub fn gen_taken(s: &[u8], at: usize) -> bool
    requires { at + 13 ≤ length s.now }
    ensures { result ≡ gen_taken (drop at s.now) }
{
    alloc::generation(s, at) < 16
}

// Whether an alloc value says that its bucket waits, and has a generation that is taken.
fn value_taken(value: &[u8]) -> bool
    ensures { result ≡ is_value_taken value.now }
{
    56 <= value.len()
        && alloc::data_type(value, 0) == DataType::NeedDiscard.number()
        && gen_taken(value, 0)
}

// Whether an alloc key is discarded. The limits show what is asked of it.
#[tactic(auto, unfolding(calls::specs::Discard::is_discarded))]
fn is_discarded(key: &ListedKey, waiting: &Waiting) -> bool
    requires { AllocKept (key_listed key.now) }
    ensures { result ≡ is_discarded (need_trees waiting.now) (key_listed key.now) }
{
    let pos = key.pos();
    key.key_type() == KeyType::AllocV4.number()
        && pos.inode == 0
        && value_taken(key.value())
        && waiting.is_waiting(positions::bucket_in(pos))
}

// The places of the alloc keys that are discarded, in the front of a room for those of all, and how many they are. The limits show the bound.
pub fn discarded_keys(room: &mut [u32], alloc: Keys, waiting: &Waiting) -> usize
    requires { All AllocKept (keys_listed alloc) × (length alloc.places.now ≤ length room.old) }
    ensures { (result ≤ length room.new) × (take result room.new ≡ places_discarded waiting.now alloc.entry.list.now alloc.entry.places.now) }
{
    // No heap: the room is the caller's slice, of any length, and n counts its front. No `ArrayVec`: its length stands in its type, and a room may have any.
    let mut n: usize = 0;
    for key in alloc.iter() {
        if is_discarded(&key, waiting) {
            room[n] = key.at as u32;
            n += 1;
        }
    }
    n
}

// The same, as keys whose places are the front of the room.
pub fn discarded_in<'a>(room: &'a mut [u32], alloc: Keys<'a>, waiting: &Waiting) -> Keys<'a>
    requires { All AllocKept (keys_listed alloc) × (length alloc.places.now ≤ length room.old) }
    ensures keys { keys_listed result ≡ discarded_from waiting.now (keys_listed alloc.entry) }
    ensures places { (result.list.now ≡ alloc.entry.list.now) × (result.places.now ≡ places_discarded waiting.now alloc.entry.list.now alloc.entry.places.now) }
{
    let n = discarded_keys(room, alloc, waiting);
    Keys {
        list: alloc.list,
        places: &room[..n],
    }
}
