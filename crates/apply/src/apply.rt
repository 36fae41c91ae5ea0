// Apply, whole.
ghost use Rattle.std.specs.Prelude.{◌≡◌, None, cond, length};
ghost use Rattle.calls.specs.ChangeList.{change_laid_out};
ghost use Rattle.calls.specs.Answers.{apply, outcome};
ghost use Rattle.reader.specs.Readings.{ReadAs};
ghost use Rattle.reader.specs.Refusals.{number_of, made_by};
ghost use Rattle.apply.specs.NextVolume.{ApplyAnswered};

use crate::lists;
use reader::read_list::ReadList;
use reader::refusal::Refusal;
use reader::{call, change};

// The answer to a volume that was read: 2 where the layout of the change list is broken, or the next volume.
fn apply_read(read: &ReadList, change: &[u8], out: &mut [u8]) -> Result<usize, Refusal>
    requires { ReadAs None read.now }
    ensures { ApplyAnswered read.now.list.now change.now result out.old out.new }
{
    if !change::check_change(change) {
        return Err(Refusal::Layout);
    }
    lists::apply_lists(read, change, out)
}

// The refusal of a volume beside a change list: a layout that is broken is told before 22 and 3, and where it is the volume's, the change list is not looked at.
fn first_refusal(refusal: Refusal, change: &[u8]) -> Refusal
    ensures { number_of result ≡ cond (change_laid_out change.now) (number_of refusal) 2 }
{
    if refusal == Refusal::Layout || !change::check_change(change) {
        return Refusal::Layout;
    }
    refusal
}

// Apply: for any volume, change list and output, how many bytes are written or the refusal, and the output, that the definition gives. A layout that is broken is
// refused before all else.
pub fn apply(volume: &[u8], change: &[u8], out: &mut [u8]) -> Result<usize, Refusal>
    ensures { made_by result out.new ≡ outcome (apply volume.now change.now (length out.old)) out.old }
{
    match call::with_list_apart(
        volume,
        None,
        &mut [],
        out,
        |read, _, out| apply_read(read, change, out),
    ) {
        Ok(answer) => answer,
        Err(refusal) => Err(first_refusal(refusal, change)),
    }
}
