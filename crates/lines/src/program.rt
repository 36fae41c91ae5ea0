// The work of the program: what is printed for what is read.
ghost use Rattle.std.specs.Prelude.{◌≡◌};
ghost use Rattle.wire.specs.Output.{with_bytes};
ghost use Rattle.lines.specs.Program.{answer_by_byte, AnsweredIn, answer_lines, bucket_lines, Shown};

use crate::{change_lines, other_lines};
use discard::discard as discard_call;
use place::place as place_call;
use reader::call_kinds::Call;
use reader::head;
use reader::refusal::Refusal;
use release::release as release_call;
use wire::output::Output;

// A longer list is refused.
const LONGEST_LIST: usize = 32768;

// The answer of the call that a list names, in 65,536 bytes. A list that names none is refused by each call, and here by discard.
// A buffer and a count: the calls answer a count, as the C interface does.
fn answer_to(list: &[u8], change: &mut [u8; 65536]) -> Result<usize, Refusal>
    ensures { AnsweredIn (answer_by_byte list.now) result change.new }
{
    match Call::try_from(head::call_byte(list)).unwrap_or(Call::Discard) {
        Call::Place => place_call::place(list, change),
        Call::Release => release_call::release(list, &mut [0u32; 65536], change),
        Call::Discard => discard_call::discard(list, change),
    }
}

// The lines of an answer to a list, whose bytes stand at the front of a buffer. What `answer_to` ensures shows what is required.
fn put_answer(out: &mut Output, list: &[u8], answer: Result<usize, Refusal>, change: &[u8; 65536])
    requires { AnsweredIn (answer_by_byte list.now) answer change.now }
    ensures { out.new ≡ with_bytes out.old (answer_lines (answer_by_byte list.now)) }
{
    match answer {
        Ok(written) => change_lines::put_lines(out, &change[..written]),
        Err(refusal) => other_lines::put_refused(out, refusal.number()),
    }
}

// The lines of what is printed for a list.
fn put_bucket_lines(out: &mut Output, list: &[u8])
    ensures { out.new ≡ with_bytes out.old (bucket_lines list.now) }
{
    if LONGEST_LIST < list.len() {
        return other_lines::put_refused(out, Refusal::Limit.number());
    }
    let mut change = [0u8; 65536];
    let answer = answer_to(list, &mut change);
    put_answer(out, list, answer, &change);
}

// What is printed for a list, and how many bytes of the text that is. A length and not the slice: of what is lent to a result no clause says what it holds after the call, and the rest of the text stands.
pub fn bucket_lines(list: &[u8], text: &mut [u8; 262144]) -> usize
    ensures { Shown (bucket_lines list.now) text.old text.new result }
{
    let mut out = Output::new(text);
    put_bucket_lines(&mut out, list);
    out.at
}
