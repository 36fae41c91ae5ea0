// The next volume, whole.
ghost use Rattle.std.specs.Prelude.{◌≡◌, ◌+◌, ◌/◌, ◌≤◌, ◌<◌, IfSome, get_or};
ghost use Rattle.sorting.specs.Entries.{sections};
ghost use Rattle.merge.specs.Merging.{Done};
ghost use Rattle.merge.specs.QueueParts.{InParts};
ghost use Rattle.merge.specs.QueueTable.{QueuePart};
ghost use Rattle.apply.specs.Roots.{roots_after};
ghost use Rattle.apply.specs.NextVolume.{Lists, bytes_after, Ready, next_of, SectionListed, SectionsReady, VolumeDone, ApplyAnswered};

use crate::front;
use merge::below::Rest;
use merge::limits::KeyCount;
use merge::merge as merging;
use merge::queue::Queue;
use reader::answer;
use reader::answer::Emit;
use reader::read_list::ReadList;
use reader::refusal::Refusal;
use sorting::entries::BUCKETS;
use std::marker::Model;
use wire::output::Output;
use wire::trees::Tree;

// A section by the tag of its keys: their places in the volume, and those of its queued keys in the change list, where the table that is lent held them.
// A byte and no `Tree`: the reserved buckets are of no tree, and `BUCKETS` is a byte.
#[derive(Clone, Copy, Drop)]
struct Section<'s> {
    tag: u8,
    keys: &'s [u32],
    queue: Option<&'s [usize]>,
}

impl<'s> Section<'s> {
    // A section with these places.
    fn new(tag: u8, keys: &'s [u32], queue: Option<&'s [usize]>) -> Section<'s>
        ensures { result ≡ record { tag = tag; keys = keys.entry; queue = queue.entry } }
    {
        Section { tag, keys, queue }
    }
}

// What the next volume is made of: a volume that was read, with the root bits of the next; a change list, and the places of its queued keys by section, where the table that is lent
// held them.
#[derive(Drop)]
pub struct NextVolume<'a, 'q> {
    read: ReadList<'a>,
    roots: u8,
    change: &'a [u8],
    queue: Option<Queue<'q>>,
}

// It is seen as both lists. Their layouts were tested, and the places are theirs.
impl<'a, 'q> Model for NextVolume<'a, 'q> {
    ghost Value = { Lists };

    ghost view = { λ n. record { volume = n.read.list.now; change = n.change.now } };

    ghost invariant = { λ n. Ready n.read n.change.now × (n.roots ≡ roots_after n.change.now n.read.head.roots) × InParts n.change.now n.queue };
}

impl<'a, 'q> NextVolume<'a, 'q> {
    // The places of the queued keys of a section by its place among the sections, where the table holds them. `sections` names the seven.
    // By its place: the parts stand in the order of `SECTIONS`, and the volume's keys are fields of `ReadList`, which no iterator visits.
    fn queued(&self, i: usize) -> Option<&[usize]>
        requires { i < 7 }
        ensures { IfSome result (λ q. QueuePart (get_or sections i 0) self.now.change q.now) }
    {
        Some(self.queue?.parts[i])
    }

    // The sections of the volume, in order.
    fn sections(&self) -> [Section; 7]
        ensures { SectionsReady self.now result }
    {
        let r = &self.read;
        [
            Section::new(Tree::Alloc.tag(), r.alloc.places, self.queued(0)),
            Section::new(Tree::Lru.tag(), r.lru.places, self.queued(1)),
            Section::new(Tree::Freespace.tag(), r.freespace.places, self.queued(2)),
            Section::new(
                Tree::NeedDiscard.tag(),
                r.need_discard.places,
                self.queued(3),
            ),
            Section::new(
                Tree::Backpointers.tag(),
                r.backpointers.places,
                self.queued(4),
            ),
            Section::new(Tree::BucketGens.tag(), r.gens.places, self.queued(5)),
            Section::new(BUCKETS, r.reserved.places, self.queued(6)),
        ]
    }

    // A section of the next volume; how many keys were written. `sections` shows that its places are of its keys.
    fn put_section(&self, out: &mut Output, s: &Section) -> KeyCount
        requires { SectionListed self.now s.now }
        ensures { Done s.now.tag out.old (next_of self.now.volume self.now.change s.now.tag) out.new result }
    {
        let rest = Rest::new(s.tag, self.read.list, s.keys);
        match s.queue {
            Some(queue) => merging::put_section(out, rest, self.change, queue),
            None => merging::put_section_in_chunks(out, rest, self.change),
        }
    }

    // The next volume; whether each of its sections is within the limits.
    fn put(&self, out: &mut Output) -> bool
        ensures { VolumeDone self.now out.old out.new result }
    {
        front::put_front(out, self.read.head, self.roots);
        let mut within = true;
        for section in self.sections().iter() {
            within &= self.put_section(out, section).is_within();
        }
        within
    }

    // Apply: first into no room, which tells whether the limits are kept, and the length.
    fn write(&self, out: &mut [u8]) -> Result<usize, Refusal>
        ensures { ApplyAnswered self.now.volume self.now.change result out.old out.new }
    {
        let mut none = [0u8; 0];
        let mut dry = Output::new(&mut none);
        if !self.put(&mut dry) {
            return Err(Refusal::Limit);
        }
        answer::written_of_length(self, dry.at, out)
    }
}

impl<'a, 'q> Emit for NextVolume<'a, 'q> {
    ghost bytes = { bytes_after };

    fn emit(&self, out: &mut Output) {
        self.put(out);
    }
}

// Apply, with tables of N of the change list's queued keys, and of half as many to sort them in. `apply_lists` shows what is asked. No heap: the tables stand in this frame, and
// `apply_lists` picks one of two sizes.
fn apply_within<const N: usize, const HALF: usize>(
    read: &ReadList,
    change: &[u8],
    out: &mut [u8],
) -> Result<usize, Refusal>
    requires { Ready read.now change.now × (N / 2 ≤ HALF) × (N + HALF ≤ 0xffff) }
    ensures { ApplyAnswered read.now.list.now change.now result out.old out.new }
{
    let mut table = [0usize; N];
    let mut spare = [0usize; HALF];
    let queue = Queue::sorted(change, &mut table, &mut spare);
    let next = NextVolume {
        read: *read,
        roots: front::roots_after(change, read.head.roots),
        change,
        queue,
    };
    next.write(out)
}

// Apply, once the volume was read and `check_change` accepted the change list. A queued key takes seven bytes and more, and no call queues more than 16,384.
pub fn apply_lists(read: &ReadList, change: &[u8], out: &mut [u8]) -> Result<usize, Refusal>
    requires { Ready read.now change.now }
    ensures { ApplyAnswered read.now.list.now change.now result out.old out.new }
{
    if change.len() <= 3584 {
        apply_within::<512, 256>(read, change, out)
    } else {
        apply_within::<16384, 8192>(read, change, out)
    }
}
