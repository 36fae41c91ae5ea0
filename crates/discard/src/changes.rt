// All batches of a discard (discard_freed), and its answer.
ghost use Rattle.std.specs.Int.NonZero.{non_zero_u32_get};
ghost use Rattle.std.specs.Prelude.{◌≡◌, ◌≤◌, length};
ghost use Rattle.wire.specs.Output.{with_bytes};
ghost use Rattle.reader.specs.ListedKeys.{keys_listed};
ghost use Rattle.discard.specs.Answered.{DiscardAnswered};
ghost use Rattle.discard.specs.Emitted.{changes_from};
ghost use Rattle.discard.specs.Given.{DiscardGiven};

use crate::batch;
use crate::batch::Discarded;
use need_discard::discarded;
use need_discard::waiting::Waiting;
use reader::answer;
use reader::answer::Emit;
use reader::listed_keys::Keys;
use reader::read_list::ReadList;
use reader::refusal::Refusal;
use std::marker::Model;
use std::num::NonZero;
use wire::output::Output;

// The batches, in alloc order.
pub fn discard_freed(out: &mut Output, size: NonZero<u32>, d: &Discarded)
    ensures { out.new ≡ with_bytes out.old (changes_from d.now.waiting.now (non_zero_u32_get size) (keys_listed d.now.keys)) }
{
    for places in d.keys.places.chunks(size.get() as usize) {
        // Made here and not by an iterator over chunks of `Keys`: no other place cuts keys into chunks, and the iterator would have to state the list and the places of each.
        let keys = Keys {
            list: d.keys.list,
            places,
        };
        let part = Discarded {
            keys,
            waiting: d.waiting,
        };
        batch::discard_buckets(out, &part);
    }
}

// The changes of a discard. A clause sees their bytes.
#[derive(Drop)]
pub struct Changes<'a, 'w> {
    size: NonZero<u32>,
    discarded: Discarded<'a, 'w>,
}

impl<'a, 'w> Model for Changes<'a, 'w> {
    ghost use Rattle.std.specs.Prelude.{ℕ, List};

    ghost Value = { List ℕ };

    ghost use Rattle.discard.specs.ChangesView.{changes_view};

    ghost view = { changes_view };
}

impl<'a, 'w> Changes<'a, 'w> {
    // The changes in batches of a size.
    pub fn new(size: NonZero<u32>, d: Discarded<'a, 'w>) -> Changes<'a, 'w>
        ensures { result ≡ changes_from d.entry.waiting.now (non_zero_u32_get size) (keys_listed d.entry.keys) }
    {
        Changes { size, discarded: d }
    }
}

impl<'a, 'w> Emit for Changes<'a, 'w> {
    ghost bytes = { λ c. c };

    fn emit(&self, out: &mut Output) {
        discard_freed(out, self.size, &self.discarded);
    }
}

// A list of a discard that was read, and how many keys a batch has, which refusal 20 shows to be some. The reader shows what is said of the list.
#[derive(Clone, Copy, Drop)]
pub struct DiscardList<'a> {
    pub read: ReadList<'a>,
    pub size: NonZero<u32>,
    pub ghost given: { DiscardGiven read },
    pub ghost same_size: { non_zero_u32_get size ≡ read.head.batch },
}

// The answer to a discard, with room for the places of N alloc keys. Who chooses N shows the bounds.
fn discard_within<const N: usize>(
    list: &DiscardList,
    waiting: &Waiting,
    out: &mut [u8],
) -> Result<usize, Refusal>
    requires { (waiting.now ≡ keys_listed list.now.read.need_discard) × (length list.now.read.alloc.places.now ≤ N) × (N ≤ 4096) }
    ensures { DiscardAnswered list.now.read result out.old out.new }
{
    let mut room = [0u32; N];
    let d = Discarded {
        keys: discarded::discarded_in(&mut room, list.read.alloc, waiting),
        waiting,
    };
    answer::written(&Changes::new(list.size, d), out)
}

// The answer with a table of the need-discard keys. Its 128 KiB stand in this frame alone, which is not entered for a short list.
#[inline(never)]
fn discard_tabled(list: &DiscardList, out: &mut [u8]) -> Result<usize, Refusal>
    ensures { DiscardAnswered list.now.read result out.old out.new }
{
    let mut table = [0u16; 65536];
    let waiting = Waiting::tabled(list.read.need_discard, &mut table);
    if list.read.alloc.len() <= 64 {
        discard_within::<64>(list, &waiting, out)
    } else {
        discard_within::<4096>(list, &waiting, out)
    }
}

// The answer to a discard. Few alloc keys have a small room, and with few need-discard keys no table.
pub fn discard_lists(list: &DiscardList, out: &mut [u8]) -> Result<usize, Refusal>
    ensures { DiscardAnswered list.now.read result out.old out.new }
{
    if list.read.alloc.len() <= 64 && list.read.need_discard.len() <= 16 {
        let waiting = Waiting::searched(list.read.need_discard);
        return discard_within::<64>(list, &waiting, out);
    }
    discard_tabled(list, out)
}
