// The backpointer of an extent.
ghost use Rattle.std.specs.Prelude.{◌≡◌};
ghost use Rattle.wire.specs.Numbers.{words_bytes};
ghost use Rattle.format.specs.Backpointer.{backpointer};

use crate::data_types::DataType;
use wire::bpos::Bpos;

// Its 32 bytes, as four words.
pub fn backpointer(generation: u8, stored: u32, extent: Bpos) -> [u64; 4]
    ensures { words_bytes result ≡ backpointer generation stored extent }
{
    let user = DataType::User.number() as u64;
    [
        (user << 16) + ((generation as u64) << 24),
        stored as u64 + ((extent.snapshot as u64) << 32),
        extent.offset,
        extent.inode,
    ]
}
