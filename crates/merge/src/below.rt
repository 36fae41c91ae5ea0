// The keys of a section in the volume, by their places: those below a limit are written, and one at a position is passed.
ghost use Rattle.std.specs.Prelude.{◌≡◌, ◌+◌, ◌≤◌, ◌<◌, ℕ, length, get_or};
ghost use Rattle.wire.specs.Bytes.{All};
ghost use Rattle.sorting.specs.EntryPlaces.{entries_at};
ghost use Rattle.merge.specs.Queues.{below, beyond, skip_at};
ghost use Rattle.merge.specs.Counts.{StandsWithin};
ghost use Rattle.merge.specs.Merging.{Left, left_in, stretch_of, Stretched, Put, KeyCounted};

use crate::limits::KeyCount;
use sorting::bound;
use sorting::bound::Bound;
use sorting::entries::Entry;
use std::marker::Model;
use wire::bpos;
use wire::bpos::Bpos;
use wire::key_types::KeyType;
use wire::output::Output;

// Neighbouring fields of the volume: how many they are, where the last of them ends, and the count up to it.
#[derive(Clone, Copy, Drop)]
pub struct Stretch {
    pub n: usize,
    pub end: usize,
    pub count: KeyCount,
}

impl Stretch {
    // The stretch of n fields, if there are any.
    fn of(n: usize, end: usize, count: KeyCount) -> Option<Stretch>
        ensures { result ≡ stretch_of n end count }
    {
        (n != 0).then_some(Stretch { n, end, count })
    }
}

// What is left of the keys of a section, by their places in the volume, and how many keys were written so far.
// The output is no field of it: `skip_at` and `add_shown` write nothing, and would have to say that it stays.
#[derive(Clone, Drop)]
pub struct Rest<'a> {
    section: u8,
    vol: &'a [u8],
    keys: &'a [u32],
    count: KeyCount,
}

// It is seen as the keys themselves. Each is within its limits.
impl<'a> Model for Rest<'a> {
    ghost Value = { Left };

    ghost view = { λ r. left_in r.section r.vol.now r.keys.now r.count };

    ghost invariant = { λ r. All (StandsWithin r.section r.vol.now) r.keys.now };
}

// Keys that stand side by side from a place on, as far as they are below the limit; none where the first is not. The table shows that they are keys, and refusal 3 that each is within
// its limits. A function of the parts of a `Rest` and no method of it: the model of a `Rest` leaves out the volume, whose bytes the stretch is.
fn pass_below(
    vol: &[u8],
    keys: &[u32],
    start: usize,
    counted: KeyCount,
    section: u8,
    lim: Bound,
) -> Option<Stretch>
    requires { All (StandsWithin section vol.now) keys.now × (0 < length keys.now) × (start + 3 ≡ get_or keys.now 0 0) }
    ensures { Stretched section vol.now keys.now start counted lim result }
{
    let mut end = start;
    let mut count = counted;
    for (n, place) in keys.iter().enumerate() {
        let key = Entry {
            list: vol,
            section,
            at: *place as usize,
        };
        if key.at != end + 3 || !bound::is_under(lim, key.pos()) {
            return Stretch::of(n, end, count);
        }
        count = count.add_within();
        end = key.end();
    }
    Stretch::of(keys.len(), end, count)
}

impl<'a> Rest<'a> {
    // All keys of a section, by the table of the volume; none was written.
    pub fn new(section: u8, vol: &'a [u8], keys: &'a [u32]) -> Rest<'a>
        requires { All (StandsWithin section vol.now) keys.now }
        ensures { result ≡ left_in section vol.now keys.now 0 }
    {
        Rest::counted(section, vol, keys, KeyCount::new())
    }

    // The keys of a section that are left, by a table of the volume, and how many were written so far.
    pub fn counted(section: u8, vol: &'a [u8], keys: &'a [u32], count: KeyCount) -> Rest<'a>
        requires { All (StandsWithin section vol.now) keys.now }
        ensures { result ≡ left_in section vol.now keys.now count }
    {
        Rest {
            section,
            vol,
            keys,
            count,
        }
    }

    // The section.
    pub fn section(&self) -> u8
        ensures { result ≡ self.now.section }
    {
        self.section
    }

    // How many keys were written.
    pub fn count(&self) -> KeyCount
        ensures { result ≡ self.now.count }
    {
        self.count
    }

    // Writes the keys below the limit, neighbours as one stretch.
    pub fn put_below(&mut self, out: &mut Output, lim: Bound)
        ensures { Put out.old self.old (below lim self.old.keys) (beyond lim self.old.keys) out.new self.new }
    {
        while let [first, ..] = self.keys {
            let start = *first as usize - 3;
            let Some(s) = pass_below(self.vol, self.keys, start, self.count, self.section, lim)
            else {
                return;
            };
            out.put_slice(&self.vol[start..s.end]);
            self.keys = &self.keys[s.n..];
            self.count = s.count;
        }
    }

    // Passes the next key, if it is at pos.
    pub fn skip_at(&mut self, pos: Bpos)
        ensures { self.new ≡ record self.old { keys = skip_at pos self.old.keys } }
    {
        let [first, others @ ..] = self.keys else {
            return;
        };
        let key = Entry {
            list: self.vol,
            section: self.section,
            at: *first as usize,
        };
        if bpos::pos_same(pos, key.pos()) {
            self.keys = others;
        }
    }

    // Counts a queued key, unless it is a deletion. By its type and position: an `Entry` would ask more of the caller.
    pub fn add_shown(&mut self, ty: u8, pos: Bpos)
        ensures { KeyCounted self.old ty pos self.new }
    {
        if ty != KeyType::Deleted.number() {
            self.count = self.count.add(self.section, ty, pos);
        }
    }
}
