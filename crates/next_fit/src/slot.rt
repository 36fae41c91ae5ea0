// Next fit: which bucket a piece goes into.
ghost use Rattle.std.specs.Prelude.{◌≡◌, ◌<◌, ◌^◌, [], ◌∷◌};
ghost use Rattle.calls.specs.Pieces.{next_fit};
ghost use Rattle.next_fit.specs.Fit.{fit_in};

// Where a piece goes, as a table holds it: the index of its bucket among those taken, and its offset there, in four bytes.
#[derive(Clone, Copy, Default, Drop)]
pub struct Slot {
    pub index: u16,
    pub offset: u16,
}

// Where next fit puts a piece, in the widths that it computes with: it may be asked at any index below 2^63.
// No generic `Slot`: each is viewed by its own definition, and two type parameters would serve two uses.
#[derive(Clone, Copy, Drop)]
pub struct Fit {
    pub index: usize,
    pub offset: u64,
}

// The bucket that pieces go into, by its index among those taken, and how many of its sectors are used.
#[derive(Clone, Copy, Drop)]
pub struct OpenBucket {
    pub index: usize,
    pub used: u64,
}

impl OpenBucket {
    // Where a piece goes: one that exceeds the open bucket opens the next. Two-byte fields and 1,024 pieces show the bounds.
    #[tactic(auto, unfolding(calls::specs::Pieces::next_fit))]
    pub fn next_fit(self, stored: u64, bucket: u64) -> Fit
        requires { (self.index < 2 ^ 63) × (self.used < 65536) × (stored < 65536) }
        ensures { next_fit bucket self.index self.used (stored ∷ []) ≡ fit_in result ∷ [] }
    {
        if self.used + stored <= bucket {
            return Fit {
                index: self.index,
                offset: self.used,
            };
        }
        Fit {
            index: self.index + 1,
            offset: 0,
        }
    }
}
