// The six calls, each with its one outcome over any input: what the C boundary exports (crate zerglaz_c).
// Each answers a count and no slice: C is told a count, and the rest of an output stands as it was.
#![tactic(auto)]

ghost use Rattle.std.specs.Prelude.{◌≡◌, length};
ghost use Rattle.wire.specs.Kinds.{buckets_in};
ghost use Rattle.calls.specs.Answers.{outcome, scratch_after, place, release, discard, apply, sort, generations, generations_outcome};
ghost use Rattle.reader.specs.Refusals.{made_by, looked_up_by};

use apply::apply as apply_call;
use discard::discard as discard_call;
use generations::generations as generations_call;
use place::place as place_call;
use reader::refusal::Refusal;
use release::release as release_call;
use sort::sort as sort_call;

// Chooses buckets for the pieces asked and writes the change list that places them.
pub fn zerglaz_place(list: &[u8], out: &mut [u8]) -> Result<usize, Refusal>
    ensures { made_by result out.new ≡ outcome (place list.now (length out.old)) out.old }
{
    place_call::place(list, out)
}

// Writes the change list that gives the named pieces' sectors back.
pub fn zerglaz_release(list: &[u8], scratch: &mut [u32], out: &mut [u8]) -> Result<usize, Refusal>
    ensures { (made_by result out.new ≡ outcome (release list.now (length scratch.old) (length out.old)) out.old) × (scratch.new ≡ scratch_after scratch.old) }
{
    release_call::release(list, scratch, out)
}

// Writes the change list that frees the waiting buckets.
pub fn zerglaz_discard(list: &[u8], out: &mut [u8]) -> Result<usize, Refusal>
    ensures { made_by result out.new ≡ outcome (discard list.now (length out.old)) out.old }
{
    discard_call::discard(list, out)
}

// Writes the volume that a change list makes of a volume.
pub fn zerglaz_apply(volume: &[u8], change: &[u8], out: &mut [u8]) -> Result<usize, Refusal>
    ensures { made_by result out.new ≡ outcome (apply volume.now change.now (length out.old)) out.old }
{
    apply_call::apply(volume, change, out)
}

// Writes the sorted form of a call list.
pub fn zerglaz_sort(list: &[u8], out: &mut [u8]) -> Result<usize, Refusal>
    ensures { made_by result out.new ≡ outcome (sort list.now (length out.old)) out.old }
{
    sort_call::sort(list, out)
}

// Writes the generations of up to 1,024 ascending buckets, in one walk of a volume's tree 14, and counts the keys that it visits.
pub fn zerglaz_generations(volume: &[u8], buckets: &[u32], out: &mut [u8]) -> Result<usize, Refusal>
    ensures { looked_up_by result out.new ≡ generations_outcome (generations volume.now (buckets_in buckets.now) (length out.old)) out.old }
{
    generations_call::generations(volume, buckets, out)
}
