// The checksum options of a head, and their bytes; the checksum types of an entry, and their numbers.
ghost use Rattle.std.specs.Prelude.{◌≡◌, ◌≤◌, ℕ, length};
ghost use Rattle.format.specs.Checksums.{option_byte, Names, csum_number};
ghost use Rattle.format.specs.Entries.{extent_words};

// What checksum a placed piece's extent has.
#[derive(Clone, Copy, PartialEq, Eq, Debug, Drop)]
pub enum ChecksumOption {
    // None.
    Off = 0,
    // crc32c.
    Crc32c = 1,
    // crc64.
    Crc64 = 2,
    // xxhash.
    Xxhash = 3,
}

// A byte that names no option.
#[derive(Clone, Copy, PartialEq, Eq, Debug, Drop)]
pub struct UnknownOption(pub u8);

impl TryFrom<u8> for ChecksumOption {
    type Error = UnknownOption;

    ghost try_from_gives = { Names };

    // The option that a byte names, if it names one. In numbers: no pattern may be a cast.
    fn try_from(byte: u8) -> Result<ChecksumOption, UnknownOption> {
        match byte {
            0 => Ok(ChecksumOption::Off),
            1 => Ok(ChecksumOption::Crc32c),
            2 => Ok(ChecksumOption::Crc64),
            3 => Ok(ChecksumOption::Xxhash),
            _ => Err(UnknownOption(byte)),
        }
    }
}

impl ChecksumOption {
    // How many words an extent's value has: its checksum entry's, and the pointer.
    #[tactic(auto, unfolding(crate::specs::Entries::checksum_entry, crate::specs::Entries::extent_words))]
    pub fn extent_size(self) -> usize
        ensures { (result ≤ 3) × ((kind stored file checksum word : ℕ) → length (extent_words (option_byte self) kind stored file checksum word) ≡ result) }
    {
        match self {
            ChecksumOption::Off => 1,
            ChecksumOption::Crc32c => 2,
            ChecksumOption::Crc64 | ChecksumOption::Xxhash => 3,
        }
    }
}

// What checksum an entry has, by the Linux header's BCH_CSUM types.
// An enum of its own beside `ChecksumOption`: the format numbers options and types apart, and a variant has one number.
#[derive(Clone, Copy, PartialEq, Eq, Debug, Drop)]
pub enum ChecksumType {
    // None.
    None = 0,
    // crc32c.
    Crc32c = 5,
    // crc64.
    Crc64 = 6,
    // xxhash.
    Xxhash = 7,
}

impl ChecksumType {
    // Its number. A method and not `From`: its name says which number, where `u8::from` does not.
    pub fn number(self) -> u8
        ensures { result ≡ csum_number self }
    {
        self as u8
    }
}
