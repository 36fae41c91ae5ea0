// Tree 4: the alloc keys of the buckets taken.
ghost use Rattle.std.specs.Prelude.{◌≡◌, map};
ghost use Rattle.wire.specs.Encode.{encode_field, key_field};
ghost use Rattle.wire.specs.Positions.{alloc_at};
ghost use Rattle.format.specs.AllocV4.{new_alloc};
ghost use Rattle.calls.specs.Trees.{new_key};
ghost use Rattle.calls.specs.Clock.{clock_of};
ghost use Rattle.calls.specs.Place.{placed_of, new_alloc_key};
ghost use Rattle.calls.specs.Answers.{read_call, read_volume};
ghost use Rattle.change_fields.specs.FieldBytes.{keys_bytes};
ghost use Rattle.wire.specs.Output.{with_bytes};

use crate::dirty::DirtyPlan;
use format::alloc;
use wire::key_types::KeyType;
use wire::keys::KeyHead;
use wire::kinds::Bucket;
use wire::output::Output;
use wire::positions;
use wire::trees::Tree;

// The alloc key of a bucket. Its four numbers come from four places, and `new_alloc` alone takes them all too.
pub fn put_alloc(out: &mut Output, b: Bucket, journal: u64, generation: u8, dirty: u32, clock: u64)
    ensures { out.new ≡ with_bytes out.old (encode_field (key_field 4 (new_key 27 0 (alloc_at b) (new_alloc journal generation dirty clock)))) }
{
    let head = KeyHead::new(KeyType::AllocV4.number(), 0, positions::alloc_at(b));
    out.put_words_key(
        Tree::Alloc.tag(),
        head,
        &alloc::new_alloc(journal, generation, dirty, clock),
    );
}

// The alloc keys of the buckets taken, in order. `write_clock` gives the clock.
pub fn put_allocs(out: &mut Output, counted: &DirtyPlan, clock: u64)
    requires { clock ≡ clock_of (read_volume counted.now.plan.now.list.now).trees.alloc }
    ensures { out.new ≡ with_bytes out.old (keys_bytes 4 (map (new_alloc_key (read_volume counted.now.plan.now.list.now) (placed_of (read_call counted.now.plan.now.list.now))) counted.now.plan.now.taken.now)) }
{
    let plan = counted.plan;
    let buckets = plan.taken.iter().zip(plan.gens).zip(counted.dirty);
    for ((b, generation), dirty) in buckets {
        put_alloc(out, *b, plan.head.journal, *generation, *dirty, clock);
    }
}
