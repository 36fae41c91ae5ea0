// The generation of a bucket.
ghost use Rattle.std.specs.Prelude.{◌≡◌, true};
ghost use Rattle.wire.specs.Kinds.{bucket_in_range};
ghost use Rattle.calls.specs.Generations.{found_in, or_zero, gen_lookup, gen_of, gen_short};
ghost use Rattle.gens.specs.Lookups.{lookup_is};
ghost use Rattle.gens.specs.Records.{record_listed};

use crate::records::Records;
use reader::key::ListedKey;
use wire::kinds::Bucket;
use wire::positions;

// Why tree 14 has no generation of a bucket.
#[derive(Clone, Copy, PartialEq, Eq, Debug, Drop)]
pub enum NoGeneration {
    // No record is there.
    NoRecord,
    // The record is too short for its byte.
    TooShort,
}

// Looks a bucket up in its record, if there is one.
#[tactic(auto, unfolding(format::specs::Gens::gen_in))]
fn found_in(found: Option<ListedKey>, b: Bucket) -> Result<u8, NoGeneration>
    ensures { lookup_is result ≡ found_in b (record_listed found.entry) }
{
    let key = found.ok_or(NoGeneration::NoRecord)?;
    let i = positions::gens_byte(b);
    key.value().get(i).copied().ok_or(NoGeneration::TooShort)
}

// The generation of a bucket in its record, and 0 where none is found.
pub fn record_gen(found: Option<ListedKey>, b: Bucket) -> u8
    ensures { result ≡ or_zero (found_in b (record_listed found.entry)) }
{
    found_in(found, b).unwrap_or(0)
}

impl<'a> Records<'a> {
    ghost use Rattle.reader.specs.ListedKeys.{keys_listed};

    // Looks a bucket up. The limits show the bound.
    // No type shows it: one in range would be a second kind beside `Bucket`, and a bucket of a list may have any number.
    #[tactic(auto, unfolding(calls::specs::Generations::gen_lookup))]
    pub fn find_gen(&self, b: Bucket) -> Result<u8, NoGeneration>
        requires { bucket_in_range b ≡ true }
        ensures { lookup_is result ≡ gen_lookup (keys_listed self.now.gens) b }
    {
        found_in(self.record_of(b), b)
    }

    // Whether its record is too short. The limits show the bound.
    // No type shows it: one in range would be a second kind beside `Bucket`, and a bucket of a list may have any number.
    #[tactic(auto, unfolding(calls::specs::Generations::gen_short))]
    pub fn gen_short(&self, b: Bucket) -> bool
        requires { bucket_in_range b ≡ true }
        ensures { result ≡ gen_short (keys_listed self.now.gens) b }
    {
        matches!(self.find_gen(b), Err(NoGeneration::TooShort))
    }
}
