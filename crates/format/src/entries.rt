// The entries of an extent: its checksum entry and its pointer.
ghost use Rattle.std.specs.Prelude.{◌≡◌, ◌^◌, ◌<◌, ◌≤◌, ℕ, List, length, take};
ghost use Rattle.wire.specs.Kinds.{sector_number};
ghost use Rattle.format.specs.Checksums.{option_byte, csum_number};
ghost use Rattle.format.specs.Entries.{pointer, crc32, crc64, csum_type_of, extent_words};

use crate::checksums::{ChecksumOption, ChecksumType};
use std::marker::Model;
use wire::kinds;
use wire::kinds::DeviceSector;

// The words of an extent's value: at most three. No heap: the words and how many there are stand beside one another. No `ArrayVec`: a clause would see a record with `items` in place of the words. No generic with `wire::keys::Value`: they share their view and `as_slice` alone.
#[derive(Clone, Copy, Drop)]
pub struct Words {
    words: [u64; 3],
    len: usize,
}

// They are seen as a list; the words behind it are 0.
impl Model for Words {
    ghost use Rattle.std.specs.Prelude.{ℕ, List, length, take};
    ghost use Rattle.std.proofs.Common.{length-take-le};
    ghost use Rattle.wire.specs.Filled.{filled, Filled};

    ghost Value = { List ℕ };

    ghost view = { λ w. take w.len w.words };

    ghost invariant = { λ w. Filled 3 w.len w.words };

    ghost inverse = { λ l. record { words = filled 3 l; len = length l } };

    ghost inverse_ok = { λ w f i. record {
      words = f.is i;
      len = length-take-le w.len w.words f.within i;
    } };
}

impl Words {
    // The words.
    pub fn as_slice(&self) -> &[u64]
        ensures gives { result.now ≡ self.now }
        ensures short { length self.now ≤ 3 }
    {
        &self.words[..self.len]
    }
}

// The pointer word. A bucket below 65,536 of fewer than 65,536 sectors shows the bound.
#[tactic(auto, unfolding(crate::specs::Entries::pointer, crate::specs::Packing::pack))]
pub fn pointer(d: DeviceSector, generation: u8) -> u64
    requires { sector_number d < 2 ^ 44 }
    ensures { result ≡ pointer d generation }
{
    1 + (kinds::sector_word(d) << 4) + ((generation as u64) << 56)
}

// How a piece is stored: its sectors as they are stored and in the file, and the number of its kind of compression. Refusals 6 and 9 show the bounds. No `Compression`: for C an entry of each of the sixteen numbers is made.
#[derive(Clone, Copy, Drop)]
pub struct Storage {
    pub stored: u64,
    pub file: u64,
    pub kind: u64,
    pub ghost within: { ((1 ≤ stored) × (stored ≤ 128)) × ((1 ≤ file) × (file ≤ 128)) × (kind < 16) },
}

// The crc32 entry. It and the crc64 entry have a function each, as the header has a struct for each: one for both would take the places of four parts as numbers. A checksum type's number shows the bound. No `ChecksumType`: for C an entry of each of the sixteen numbers is made.
#[tactic(auto, using(crate::proofs::EntryLaws::entries_packed))]
pub fn crc32(storage: Storage, ctype: u64, checksum: u64) -> u64
    requires { ctype < 16 }
    ensures { result ≡ crc32 storage.stored storage.file ctype storage.kind checksum }
{
    2 + ((storage.stored - 1) << 2)
        + ((storage.file - 1) << 9)
        + (ctype << 24)
        + (storage.kind << 28)
        + ((checksum % 4294967296) << 32)
}

// The first word of the crc64 entry; the checksum is the second. A checksum type's number shows the bound. No `ChecksumType`: for C an entry of each of the sixteen numbers is made.
#[tactic(auto, using(crate::proofs::EntryLaws::entries_packed))]
pub fn crc64(storage: Storage, ctype: u64) -> u64
    requires { ctype < 16 }
    ensures { result ≡ crc64 storage.stored storage.file ctype storage.kind }
{
    4 + ((storage.stored - 1) << 3)
        + ((storage.file - 1) << 12)
        + (ctype << 40)
        + (storage.kind << 44)
}

// The checksum type of an option.
impl From<ChecksumOption> for ChecksumType {
    ghost from_gives = { λ option ctype. csum_number ctype ≡ csum_type_of (option_byte option) };

    #[tactic(auto, unfolding(crate::specs::Entries::csum_type_of))]
    fn from(option: ChecksumOption) -> ChecksumType {
        match option {
            ChecksumOption::Off => ChecksumType::None,
            ChecksumOption::Crc32c => ChecksumType::Crc32c,
            ChecksumOption::Crc64 => ChecksumType::Crc64,
            ChecksumOption::Xxhash => ChecksumType::Xxhash,
        }
    }
}

// An extent's value: by option, the checksum entry and then the pointer.
#[tactic(auto, unfolding(crate::specs::Entries::csum_type_of, crate::specs::Entries::checksum_entry, crate::specs::Entries::extent_words))]
pub fn extent_words(option: ChecksumOption, storage: Storage, checksum: u64, word: u64) -> Words
    ensures { result ≡ extent_words (option_byte option) storage.kind storage.stored storage.file checksum word }
{
    let t = ChecksumType::from(option).number() as u64;
    let words = match option {
        ChecksumOption::Off => [word, 0, 0],
        ChecksumOption::Crc32c => [crc32(storage, t, checksum), word, 0],
        ChecksumOption::Crc64 | ChecksumOption::Xxhash => [crc64(storage, t), checksum, word],
    };
    Words {
        words,
        len: option.extent_size(),
    }
}
