// The write clock.
ghost use Rattle.std.specs.Prelude.{◌≡◌};
ghost use Rattle.calls.specs.Clock.{clock_of};
ghost use Rattle.reader.specs.ListedKeys.{key_listed, keys_listed};
ghost use Rattle.place_keys.specs.Times.{time_of};

use format::alloc;
use reader::key::ListedKey;
use reader::listed_keys::Keys;
use wire::key_types::KeyType;

// The clock of a key, if it has one.
#[tactic(auto, unfolding(crate::specs::Times::time_of))]
fn key_clock(key: &ListedKey) -> Option<u64>
    ensures { result ≡ time_of (key_listed key.now) }
{
    let value = key.value();
    if key.key_type() != KeyType::AllocV4.number() || value.len() < 40 {
        return None;
    }
    Some(alloc::write_time(value, 0))
}

// The largest word at 32 of type 27 keys with 40 bytes or more, else 1.
pub fn write_clock(alloc: &Keys) -> u64
    ensures { result ≡ clock_of (keys_listed alloc.now) }
{
    let clocks = alloc.iter().filter_map(|key| key_clock(&key));
    clocks.max().unwrap_or(1)
}
