// The sectors stored in each bucket taken.
ghost use Rattle.std.specs.Prelude.{◌≡◌, ℕ, ◌≤◌, length, get_or};
ghost use Rattle.calls.specs.Place.{placed_of};
ghost use Rattle.calls.specs.Answers.{read_call};
ghost use Rattle.place_keys.specs.Plan.{Dirty};

use crate::plan::Plan;

// A plan, and the dirty count of each of its buckets taken.
#[derive(Clone, Copy, Drop)]
pub struct DirtyPlan<'a> {
    pub plan: &'a Plan<'a>,
    pub dirty: &'a [u32],
    pub ghost counted: { Dirty (placed_of (read_call plan.now.list.now)) plan.now.taken.now dirty.now },
}

// Adds the stored sectors of each piece of a plan to the count of its bucket. The counts are 0 before, in a table that is lent, as long as the buckets taken or longer.
pub fn fill_dirty(dirty: &mut [u32], plan: &Plan)
    requires { (length plan.now.taken.now ≤ length dirty.old) × ((k : ℕ) → get_or dirty.old k 0 ≡ 0) }
    ensures { Dirty (placed_of (read_call plan.now.list.now)) plan.now.taken.now dirty.new }
{
    for (slot, piece) in plan.slots.iter().zip(plan.pieces.iter()) {
        let index = slot.index as usize;
        dirty[index] += piece.stored as u32;
    }
}

// The sum of the stored sectors of the pieces in each bucket of a plan, in a table of as many as there can be.
pub fn dirty_counts(plan: &Plan) -> [u32; 1024]
    ensures { Dirty (placed_of (read_call plan.now.list.now)) plan.now.taken.now result }
{
    let mut dirty = [0u32; 1024];
    fill_dirty(&mut dirty, plan);
    dirty
}
