// The kinds of compression that a piece may have, and their bytes: those of the Linux header's BCH_COMPRESSION_TYPE, and of extent.rs in the Rust code (its module `compression`).
ghost use Rattle.format.specs.Compressions.{NamesKind};

// How a piece is compressed. The header's type 1, lz4_old, is none of them.
#[derive(Clone, Copy, PartialEq, Eq, Debug, Drop)]
pub enum Compression {
    // Not at all.
    Off = 0,
    // gzip.
    Gzip = 2,
    // lz4.
    Lz4 = 3,
    // zstd.
    Zstd = 4,
    // Not at all, since it would not have become smaller.
    Incompressible = 5,
}

// A byte that names no kind.
#[derive(Clone, Copy, PartialEq, Eq, Debug, Drop)]
pub struct UnknownCompression(pub u8);

impl TryFrom<u8> for Compression {
    type Error = UnknownCompression;

    ghost try_from_gives = { NamesKind };

    // The kind that a byte names, if it names one. In numbers: no pattern may be a cast.
    fn try_from(byte: u8) -> Result<Compression, UnknownCompression> {
        match byte {
            0 => Ok(Compression::Off),
            2 => Ok(Compression::Gzip),
            3 => Ok(Compression::Lz4),
            4 => Ok(Compression::Zstd),
            5 => Ok(Compression::Incompressible),
            _ => Err(UnknownCompression(byte)),
        }
    }
}
