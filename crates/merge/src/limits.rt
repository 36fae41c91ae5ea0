// The limits of the keys that are written: those of each, and how many there may be.
ghost use Rattle.std.specs.Prelude.{◌≡◌, ◌+◌, min, leb};
ghost use Rattle.merge.specs.Counts.{count_of};

use reader::limits;
use std::marker::Model;
use wire::bpos::Bpos;

// How many keys a section may have.
const MOST: usize = 4096;

// How many keys were written; none where a limit is passed, by one of them or by how many they are.
#[derive(Clone, Copy, Drop)]
pub struct KeyCount {
    within: Option<usize>,
}

// It is seen as a number: 4,097 where a limit is passed.
impl Model for KeyCount {
    ghost use Rattle.std.specs.Prelude.{ℕ};
    ghost use Rattle.merge.specs.Counts.{count_number, count_within, Counted, count-back};

    ghost Value = { ℕ };

    ghost view = { λ c. count_number c.within };

    ghost invariant = { λ c. Counted c.within };

    ghost inverse = { λ n. record { within = count_within n } };

    ghost inverse_ok = { λ c h i. record { within = count-back c.within h i } };
}

impl KeyCount {
    // No key so far.
    pub fn new() -> KeyCount
        ensures { result ≡ 0 }
    {
        KeyCount { within: Some(0) }
    }

    // Whether the limits are kept.
    pub fn is_within(self) -> bool
        ensures { result ≡ leb self 4096 }
    {
        self.within.is_some()
    }

    // One key more that is within its limits.
    pub fn add_within(self) -> KeyCount
        ensures { min result 4097 ≡ min (self + 1) 4097 }
    {
        match self.within {
            Some(n) if n < MOST => KeyCount {
                within: Some(n + 1),
            },
            _ => KeyCount { within: None },
        }
    }

    // One key more.
    #[tactic(auto, unfolding(crate::specs::Counts::count_of))]
    pub fn add(self, section: u8, ty: u8, pos: Bpos) -> KeyCount
        ensures { min result 4097 ≡ min (self + count_of section ty pos) 4097 }
    {
        if limits::key_fits(section, ty, pos) {
            self.add_within()
        } else {
            KeyCount { within: None }
        }
    }
}
