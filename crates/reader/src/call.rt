// Call lists and volumes: refusals 2, 22 and 3. A list in order is judged in one pass; any other has its table sorted.
ghost use Rattle.std.specs.Prelude.{◌≡◌, cond, None, unwrap_or, is_none};
ghost use Rattle.calls.specs.CallList.{none_twice};
ghost use Rattle.calls.specs.Answers.{read_volume};
ghost use Rattle.reader.specs.CallFields.{head_within};
ghost use Rattle.reader.specs.Heads.{head_in};
ghost use Rattle.reader.specs.Refusals.{number_of};
ghost use Rattle.reader.specs.Arranged.{PastAsked};
ghost use Rattle.reader.specs.Table.{Fits};
ghost use Rattle.reader.specs.Surveyed.{Surveyed};
ghost use Rattle.reader.specs.Lending.{TakesRead, RefusedAs, AnsweredAs, AnsweredApart};
ghost use Rattle.reader.specs.Readings.{list_refusal, TableAnswered, ReadAnswered};

use crate::asked::Asked;
use crate::head::Head;
use crate::read_list::ReadList;
use crate::refusal::Refusal;
use crate::survey::Laid;
use crate::table::Ends;
use crate::{arrange, head, read_list, survey, table};

// How many fields there are of each rank, unless a limit is passed, by one of them or by the head.
fn counts_within(laid: Laid, first: Head) -> Option<[usize; 8]>
    ensures { result ≡ cond (head_within (head_in first)) laid.counts None }
{
    laid.counts.filter(|_| head::head_within(first))
}

// The refusal of a list that passes a limit: 22 where a position stands twice, else 3. The pass over it shows what is asked.
fn past_refusal(s: &[u8], ordered: bool) -> Refusal
    requires { PastAsked s.now ordered }
    ensures { number_of result ≡ cond (none_twice (read_volume s.now)) 3 22 }
{
    if ordered {
        return Refusal::Limit;
    }
    if arrange::doubled(s).is_err() {
        return Refusal::Twice;
    }
    Refusal::Limit
}

// The pass over a list of the call that is asked for, or without one of any, in which no request may stand.
fn survey_asked(s: &[u8], asked: Option<u8>, index: &mut [u32]) -> Option<Laid>
    requires { Fits s.now index.old }
    ensures { Surveyed (unwrap_or asked 0) (is_none asked) s.now index.new result }
{
    survey::survey(s, Asked::from(asked), index)
}

// A list of the call that is asked for, or of whatever call its head names: its head, and where the places of each tag end in the table. `with_list_apart` shows that the table is long enough. A byte
// and no `Call`: sort asks for whatever byte a list has. `Fits` stands in each contract: a struct of a list and its table would have to say beside it that its table is the one that was lent.
fn read_table(s: &[u8], asked: Option<u8>, index: &mut [u32]) -> Result<(Head, Ends), Refusal>
    requires { Fits s.now index.old }
    ensures { TableAnswered (list_refusal (unwrap_or asked 0) (is_none asked) s.now) (unwrap_or asked 0) s.now index.new result }
{
    let laid = survey_asked(s, asked, index).ok_or(Refusal::Layout)?;
    let first = head::read_head(s, laid.head_at);
    let Some(counts) = counts_within(laid, first) else {
        return Err(past_refusal(s, laid.ordered));
    };
    let ends = table::ends_of(counts);
    if laid.ordered {
        return Ok((first, ends));
    }
    arrange::sort_table(s, asked, ends, index)?;
    Ok((first, ends))
}

// The same, with the table cut into its parts. `with_list_apart` shows that the table is long enough.
fn read_parts<'a>(
    s: &'a [u8],
    asked: Option<u8>,
    index: &'a mut [u32],
) -> Result<ReadList<'a>, Refusal>
    requires { Fits s.now index.old }
    ensures { ReadAnswered asked s.now result }
{
    let (first, ends) = read_table(s, asked, index)?;
    Ok(read_list::cut(s, first, index, ends))
}

// Reads a list by a table, and answers it. `with_list_apart` shows that the table is long enough.
fn answer_by<F: FnOnce(&ReadList, &mut [u32], &mut [u8]) -> Result<usize, Refusal>>(
    list: &[u8],
    asked: Option<u8>,
    index: &mut [u32],
    scratch: &mut [u32],
    out: &mut [u8],
    answer: F,
) -> Result<Result<usize, Refusal>, Refusal>
    requires fits { Fits list.now index.old }
    requires callable { TakesRead F.FnOnce answer asked list.now scratch.old out.old }
    ensures { AnsweredApart F.FnOnce answer asked list.now scratch.old out.old result scratch.new out.new }
{
    let read = read_parts(list, asked, index)?;
    Ok(answer(&read, scratch, out))
}

// Reads a list of the call that is asked for, by its byte, or a volume: refusal 2, then 22, then 3, else, apart from these, what is answered to it, with the scratch and the output that
// are lent. A short list has a table of its own, since the long one takes 3 µs more to clear (docs/BENCHMARKS.md). A byte and no `Call`: sort asks for whatever byte a list has.
pub fn with_list_apart<F: FnOnce(&ReadList, &mut [u32], &mut [u8]) -> Result<usize, Refusal>>(
    list: &[u8],
    asked: Option<u8>,
    scratch: &mut [u32],
    out: &mut [u8],
    answer: F,
) -> Result<Result<usize, Refusal>, Refusal>
    requires callable { TakesRead F.FnOnce answer asked list.now scratch.old out.old }
    ensures { AnsweredApart F.FnOnce answer asked list.now scratch.old out.old result scratch.new out.new }
{
    if list.len() <= 3072 {
        return answer_by(list, asked, &mut [0u32; 1024], scratch, out, answer);
    }
    answer_by(list, asked, &mut [0u32; 29696], scratch, out, answer)
}

// The same, as one result.
pub fn with_list<F: FnOnce(&ReadList, &mut [u32], &mut [u8]) -> Result<usize, Refusal>>(
    list: &[u8],
    asked: Option<u8>,
    scratch: &mut [u32],
    out: &mut [u8],
    answer: F,
) -> Result<usize, Refusal>
    requires callable { TakesRead F.FnOnce answer asked list.now scratch.old out.old }
    ensures refused { RefusedAs asked list.now scratch.old out.old result scratch.new out.new }
    ensures answered { AnsweredAs F.FnOnce answer asked list.now scratch.old out.old result scratch.new out.new }
{
    with_list_apart(list, asked, scratch, out, answer)?
}
