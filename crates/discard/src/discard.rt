// The call: a list is read, then answered.
ghost use Rattle.std.specs.Prelude.{◌≡◌, length};
ghost use Rattle.calls.specs.Answers.{discard, outcome};
ghost use Rattle.reader.specs.Readings.{ReadAs};
ghost use Rattle.reader.specs.Refusals.{made_by};

use crate::changes;
use crate::changes::DiscardList;
use reader::call;
use reader::call_kinds::Call;
use reader::read_list::ReadList;
use reader::refusal::Refusal;
use std::num::NonZero;

// The answer to a list that was read: 20, or its changes.
// No type holds `ReadAs`: a `ReadList` is one for all calls and volumes, and `ReadAs` names what it was read as.
fn discard_read(read: &ReadList, out: &mut [u8]) -> Result<usize, Refusal>
    requires { ReadAs (Some 3) read.now }
    ensures { made_by result out.new ≡ outcome (discard read.now.list.now (length out.old)) out.old }
{
    let size = NonZero::<u32>::new(read.head.batch).ok_or(Refusal::NoBatch)?;
    let list = DiscardList { read: *read, size };
    changes::discard_lists(&list, out)
}

// Discard: for any list and any output, how many bytes are written or the refusal, and the output, that the definition gives.
pub fn discard(list: &[u8], out: &mut [u8]) -> Result<usize, Refusal>
    ensures { made_by result out.new ≡ outcome (discard list.now (length out.old)) out.old }
{
    call::with_list(
        list,
        Some(Call::Discard.number()),
        &mut [],
        out,
        |read, _, out| discard_read(read, out),
    )
}
