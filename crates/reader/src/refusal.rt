// Why a list is refused: the numbers of FORMAT.md, "Refusals".
ghost use Rattle.std.specs.Prelude.{◌≡◌};
ghost use Rattle.reader.specs.Refusals.{number_of};

use sorting::twice::Twice;

#[derive(Clone, Copy, Debug, PartialEq, Eq, Drop)]
pub enum Refusal {
    // 1: the scratch that is lent is too short.
    ShortScratch = 1,
    // 2: the list breaks the layout, names another call or holds requests of another; or the buckets asked for do not ascend.
    Layout = 2,
    // 3: a limit is passed.
    Limit = 3,
    // 4: a bucket has no sectors.
    NoSectors = 4,
    // 5: the checksum option is none that there is.
    ChecksumOption = 5,
    // 6: a compression kind is none that there is.
    CompressionKind = 6,
    // 7: a kind other than 0 meets checksum option 0.
    NoChecksum = 7,
    // 8: the block sectors do not divide both the bucket sectors and 128.
    BlockSectors = 8,
    // 9: a piece's sectors are not as a bucket, a block and its kind allow.
    PieceSectors = 9,
    // 10: two runs of free buckets overlap.
    RunsOverlap = 10,
    // 11: too few buckets are free.
    TooFewFree = 11,
    // 12: the walk meets a run whose size is above its offset.
    RunBeforeBuckets = 12,
    // 13: the walk would take a bucket that is in use.
    BucketInUse = 13,
    // 14: a piece has 0 or over 128 sectors, passes the end of its bucket, or has a bucket that is none.
    OutsideBucket = 14,
    // 15: a bucket has no alloc key at inode 0.
    NoAlloc = 15,
    // 16: its alloc value is too short.
    ShortAlloc = 16,
    // 17: its dirty sectors are more than a bucket has.
    DirtyPastBucket = 17,
    // 18: more is freed of it than is dirty.
    FreedPastDirty = 18,
    // 19: it is emptied and its generation record is too short.
    ShortGens = 19,
    // 20: a discard's batch has no buckets.
    NoBatch = 20,
    // 21: the output is too short.
    ShortOutput = 21,
    // 22: a key of a tree or a reserved bucket stands twice.
    Twice = 22,
}

impl Refusal {
    // Its number. A method and not `From`: its name says which number, where `u32::from` does not.
    pub fn number(self) -> u32
        ensures { result ≡ number_of self }
    {
        self as u32
    }
}

// What is told of two keys at one position is refusal 22.
impl From<Twice> for Refusal {
    ghost use Rattle.reader.specs.declared.refusal.Refusal.TheVariants as variants;

    ghost from_gives = { λ _ r. r ≡ variants.Twice };

    fn from(_twice: Twice) -> Refusal {
        Refusal::Twice
    }
}
