// The call: a list is read, then answered.
ghost use Rattle.std.specs.Prelude.{◌≡◌, length};
ghost use Rattle.calls.specs.Answers.{release, outcome, scratch_after};
ghost use Rattle.reader.specs.Readings.{ReadAs};
ghost use Rattle.reader.specs.Refusals.{made_by};
ghost use Rattle.release_sums.specs.Summing.{Cleared};

use crate::lists;
use reader::call;
use reader::call_kinds::Call;
use reader::read_list::ReadList;
use reader::refusal::Refusal;
use release_sums::sums;
use release_sums::sums::ClearedScratch;

// The answer to a list that was read, after refusal 1. `clear` shows what is required of the scratch: no `ClearedScratch`, since `with_list` lends a plain slice.
// No type holds `ReadAs`: a `ReadList` is one for all calls and volumes, and `ReadAs` names what it was read as.
fn release_read(read: &ReadList, scratch: &mut [u32], out: &mut [u8]) -> Result<usize, Refusal>
    requires { ReadAs (Some 2) read.now × Cleared scratch.old }
    ensures { (made_by result out.new ≡ outcome (release read.now.list.now (length scratch.old) (length out.old)) out.old) × (scratch.new ≡ scratch_after scratch.old) }
{
    lists::release_lists(read, &mut ClearedScratch { sums: scratch }, out)
}

// Release: for any list, scratch and output, how many bytes are written or the refusal, the output and the scratch that the definition gives.
#[tactic(auto, using(crate::proofs::ReadLaws::short_outcome, crate::proofs::ReadLaws::scratch_short))]
pub fn release(list: &[u8], scratch: &mut [u32], out: &mut [u8]) -> Result<usize, Refusal>
    ensures { (made_by result out.new ≡ outcome (release list.now (length scratch.old) (length out.old)) out.old) × (scratch.new ≡ scratch_after scratch.old) }
{
    if scratch.len() < sums::BUCKETS {
        return Err(Refusal::ShortScratch);
    }
    sums::clear(scratch);
    call::with_list(
        list,
        Some(Call::Release.number()),
        scratch,
        out,
        release_read,
    )
}
