// The call: a volume is read, then its tree 14 is walked for the buckets.
ghost use Rattle.std.specs.Prelude.{◌≡◌, true, length};
ghost use Rattle.wire.specs.Kinds.{bucket_below, buckets_in};
ghost use Rattle.calls.specs.Answers.{generations, generations_outcome};
ghost use Rattle.calls.specs.Lists.{in_order};
ghost use Rattle.reader.specs.Readings.{ReadAs};
ghost use Rattle.reader.specs.Refusals.{looked_up_by};

use crate::buckets as asked;
use gens::joint;
use reader::call;
use reader::read_list::ReadList;
use reader::refusal::Refusal;

// The answer on a volume that was read: refusal 3 where the buckets are too many or too high, 21 where the output is short, or their generations. `ascend` shows what is required
// of the buckets.
// No type holds that they ascend, for the reason beside `within`, nor `ReadAs`: a `ReadList` is one for all calls and volumes, and `ReadAs` names what it was read as.
fn look_up(read: &ReadList, buckets: &[u32], out: &mut [u8]) -> Result<usize, Refusal>
    requires { ReadAs None read.now × (in_order bucket_below (buckets_in buckets.now) ≡ true) }
    ensures { looked_up_by result out.new ≡ generations_outcome (generations read.now.list.now (buckets_in buckets.now) (length out.old)) out.old }
{
    if !asked::within(buckets) {
        return Err(Refusal::Limit);
    }
    if out.len() < buckets.len() {
        return Err(Refusal::ShortOutput);
    }
    Ok(joint::bucket_gens(out, read.gens, buckets))
}

// Generations: for any volume, buckets and output, how many keys are visited or the refusal, and the output, that the definition gives.
pub fn generations(volume: &[u8], buckets: &[u32], out: &mut [u8]) -> Result<usize, Refusal>
    ensures { looked_up_by result out.new ≡ generations_outcome (generations volume.now (buckets_in buckets.now) (length out.old)) out.old }
{
    if !asked::ascend(buckets) {
        return Err(Refusal::Layout);
    }
    call::with_list(
        volume,
        None,
        &mut [],
        out,
        |read, _, out| look_up(read, buckets, out),
    )
}
