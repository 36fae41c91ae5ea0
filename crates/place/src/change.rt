// The change list of a placement.
ghost use Rattle.std.specs.Prelude.{◌≡◌, ◌&&◌, [], ◌∷◌, map};
ghost use Rattle.wire.specs.Encode.{encode, encode_field};
ghost use Rattle.wire.specs.Output.{with_bytes};
ghost use Rattle.calls.specs.ChangeList.{taken_field, sectors_field, change_bytes};
ghost use Rattle.calls.specs.Place.{root_missing, roots_if};
ghost use Rattle.calls.specs.Answers.{read_call};
ghost use Rattle.accounting.specs.Tally.{Tallied};
ghost use Rattle.change_fields.specs.FieldBytes.{roots_bytes};
ghost use Rattle.place.specs.Change.{placement, root_is_wanted, key_fields, other_fields};
ghost use Rattle.place.specs.Prepared.{Prepared, prepared-prop};

use accounting::placement as rows;
use accounting::tally::Tallies;
use change_fields::{batch_end, root_fields};
use freespace::take::Walked;
use place_keys::dirty::DirtyPlan;
use place_keys::plan::Plan;
use place_keys::{allocs, backpointers, extents, lru, queue, spots};
use reader::answer::Emit;
use reader::listed_keys::Keys;
use reader::roots::Root;
use wire::kinds::Bucket;
use wire::output::Output;
use wire::tags::Tag;

// What a change list is written from: a plan with the dirty counts of its buckets, the runs and how far the walk over them is, the tallies of the pieces, and the write clock.
#[derive(Clone, Copy, Drop)]
pub struct ChangeList<'a> {
    pub counted: DirtyPlan<'a>,
    pub runs: Keys<'a>,
    pub walked: Walked,
    pub tallies: Tallies,
    pub clock: u64,
    pub ghost prepared: { Prepared counted.plan.now.list.now runs walked tallies clock } by { prepared-prop counted.plan.now.list.now runs walked tallies clock },
}

impl<'a> ChangeList<'a> {
    // The keys of all trees, and whether the LRU root is wanted.
    pub fn put_keys(&self, out: &mut Output) -> bool
        ensures keys { out.new ≡ with_bytes out.old (encode (key_fields (placement self.now.counted.plan.now.list.now))) }
        ensures root { result ≡ root_is_wanted self.now.counted.plan.now.list.now }
    {
        let plan = self.counted.plan;
        extents::put_extents(out, plan);
        allocs::put_allocs(out, &self.counted, self.clock);
        let root_wanted = lru::put_lrus(out, plan.taken, self.counted.dirty, plan.sectors);
        queue::put_queue(out, &self.runs, self.walked);
        backpointers::put_backpointers(out, plan);
        root_wanted
    }
}

// The whole change list, one batch.
impl<'a> Emit for ChangeList<'a> {
    ghost bytes = { λ l. change_bytes (placement l.counted.plan.now.list.now ∷ []) };

    fn emit(&self, out: &mut Output) {
        let root_wanted = self.put_keys(out);
        put_others(out, self.counted.plan, &self.tallies, root_wanted);
    }
}

// What follows the keys: root, buckets taken, spots, rows, file sectors and the end.
// `put_keys` answers whether the root is wanted, and `tally_pieces` shows what is asked of the tallies.
pub fn put_others(out: &mut Output, plan: &Plan, tallies: &Tallies, root_wanted: bool)
    requires { Tallied (read_call plan.now.list.now).pieces tallies.now × (root_wanted ≡ root_is_wanted plan.now.list.now) }
    ensures { out.new ≡ with_bytes out.old (encode (other_fields (placement plan.now.list.now))) }
{
    put_lru_root(out, root_wanted, plan.head.roots);
    put_taken(out, plan.taken);
    spots::put_spots(out, plan);
    rows::put_rows(
        out,
        plan.taken.len() as u64,
        tallies,
        plan.head,
        plan.option,
    );
    put_sectors(out, tallies.all.file);
    batch_end::put_end(out);
}

// Field 70: the LRU root, where it is wanted and does not exist.
// The flag is the definition's own, `roots_if (wanted && ..)`, and what `put_lrus` answers; the roots are the head's byte, since a narrower type would ask more of callers.
pub fn put_lru_root(out: &mut Output, wanted: bool, roots: u8)
    ensures { out.new ≡ with_bytes out.old (roots_bytes (roots_if (wanted && root_missing roots 0) 10)) }
{
    if wanted {
        root_fields::put_missing(out, roots, Root::Lru);
    }
}

// Fields 71: the buckets taken.
pub fn put_taken(out: &mut Output, taken: &[Bucket])
    ensures { out.new ≡ with_bytes out.old (encode (map taken_field taken.now)) }
{
    for b in taken {
        out.put_bucket(Tag::Taken.number(), *b);
    }
}

// Field 74: the file sectors.
pub fn put_sectors(out: &mut Output, sectors: u64)
    ensures { out.new ≡ with_bytes out.old (encode_field (sectors_field sectors)) }
{
    out.put_head(Tag::Sectors.number(), 8);
    out.put_u64(sectors);
}
