// The call: a list is read, then its sorted form is written.
ghost use Rattle.std.specs.Prelude.{◌≡◌, length};
ghost use Rattle.calls.specs.Answers.{sort, outcome};
ghost use Rattle.reader.specs.Heads.{call_byte};
ghost use Rattle.reader.specs.Readings.{ReadAs};
ghost use Rattle.reader.specs.Refusals.{made_by};

use crate::form::SortedForm;
use reader::read_list::ReadList;
use reader::refusal::Refusal;
use reader::{answer, call, head};

// The answer to a list that was read: 21, or its sorted form, which is as long as the list.
// No type holds `ReadAs`: a `ReadList` is one for all calls and volumes, and `ReadAs` names what it was read as.
fn write_form(read: &ReadList, out: &mut [u8]) -> Result<usize, Refusal>
    requires { ReadAs (Some (call_byte read.now.list.now)) read.now }
    ensures { made_by result out.new ≡ outcome (sort read.now.list.now (length out.old)) out.old }
{
    let form = SortedForm::new(read.list, read.head, read.places);
    answer::written_of_length(&form, read.list.len(), out)
}

// Sort: for any list and any output, how many bytes are written or the refusal, and the output, that the definition gives.
pub fn sort(list: &[u8], out: &mut [u8]) -> Result<usize, Refusal>
    ensures { made_by result out.new ≡ outcome (sort list.now (length out.old)) out.old }
{
    let own = head::call_byte(list);
    call::with_list(
        list,
        Some(own),
        &mut [],
        out,
        |read, _, out| write_form(read, out),
    )
}
