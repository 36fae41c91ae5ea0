// The C interface: the exported functions. Each promises what the call of crate zerglaz that it makes promises, of a number and a count, since C has no `Result`.
#![tactic(auto)]

ghost use Rattle.std.specs.Prelude.{◌≡◌, List, ℕ, length};
ghost use Rattle.wire.specs.Kinds.{buckets_in};
ghost use Rattle.calls.specs.Answers.{made, outcome, scratch_after, place, release, discard, apply, sort, generations, looked_up, generations_outcome};
ghost use Rattle.reader.specs.Refusals.{made_by, looked_up_by};

use reader::refusal::Refusal;

// What C is told of an answer, since the C interface has no `Result`: the refusal's number, or 0, is answered, and `count` takes how many bytes were written or keys visited, or 0.
fn told(answer: Result<usize, Refusal>, count: &mut usize) -> u32
    ensures made { (output : List ℕ) → made result count.new output ≡ made_by answer output }
    ensures looked_up { (output : List ℕ) → looked_up result count.new output ≡ looked_up_by answer output }
{
    match answer {
        Ok(n) => {
            *count = n;
            0
        }
        Err(refusal) => {
            *count = 0;
            refusal.number()
        }
    }
}

// Chooses buckets for the pieces asked and writes the change list that places them.
#[unsafe(no_mangle)]
pub extern "C" fn zerglaz_place(list: &[u8], out: &mut [u8], written: &mut usize) -> u32
    ensures { made result written.new out.new ≡ outcome (place list.now (length out.old)) out.old }
{
    told(zerglaz::zerglaz_place(list, out), written)
}

// Writes the change list that gives the named pieces' sectors back.
#[unsafe(no_mangle)]
pub extern "C" fn zerglaz_release(
    list: &[u8],
    scratch: &mut [u32],
    out: &mut [u8],
    written: &mut usize,
) -> u32
    ensures { (made result written.new out.new ≡ outcome (release list.now (length scratch.old) (length out.old)) out.old) × (scratch.new ≡ scratch_after scratch.old) }
{
    told(zerglaz::zerglaz_release(list, scratch, out), written)
}

// Writes the change list that frees the waiting buckets.
#[unsafe(no_mangle)]
pub extern "C" fn zerglaz_discard(list: &[u8], out: &mut [u8], written: &mut usize) -> u32
    ensures { made result written.new out.new ≡ outcome (discard list.now (length out.old)) out.old }
{
    told(zerglaz::zerglaz_discard(list, out), written)
}

// Writes the volume that a change list makes of a volume.
#[unsafe(no_mangle)]
pub extern "C" fn zerglaz_apply(
    volume: &[u8],
    change: &[u8],
    out: &mut [u8],
    written: &mut usize,
) -> u32
    ensures { made result written.new out.new ≡ outcome (apply volume.now change.now (length out.old)) out.old }
{
    told(zerglaz::zerglaz_apply(volume, change, out), written)
}

// Writes the sorted form of a call list.
#[unsafe(no_mangle)]
pub extern "C" fn zerglaz_sort(list: &[u8], out: &mut [u8], written: &mut usize) -> u32
    ensures { made result written.new out.new ≡ outcome (sort list.now (length out.old)) out.old }
{
    told(zerglaz::zerglaz_sort(list, out), written)
}

// Writes the generations of up to 1,024 ascending buckets, in one walk of a volume's tree 14, and counts the keys that it visits.
#[unsafe(no_mangle)]
pub extern "C" fn zerglaz_generations(
    volume: &[u8],
    buckets: &[u32],
    out: &mut [u8],
    visited: &mut usize,
) -> u32
    ensures { looked_up result visited.new out.new ≡ generations_outcome (generations volume.now (buckets_in buckets.now) (length out.old)) out.old }
{
    told(zerglaz::zerglaz_generations(volume, buckets, out), visited)
}
