// The answer of a call that wrote its bytes, or of one whose bytes have no room.
ghost use Rattle.std.specs.Prelude.{◌≡◌, List, ℕ, [], ◌++◌, ◌≤◌, length, drop, min};
ghost use Rattle.wire.specs.Output.{cap, with_bytes};
ghost use Rattle.calls.specs.Answers.{answer, outcome};
ghost use Rattle.reader.specs.Refusals.{made_by};

use crate::refusal::Refusal;
use wire::output::Output;

// What can be written: its bytes, all of them, whatever room there is.
pub trait Emit {
    ghost bytes: { Self → List ℕ };

    fn emit(&self, out: &mut Output)
        ensures { out.new ≡ with_bytes out.old (bytes self.now) };
}

// How many bytes that is: a run into no room tells it.
fn emitted_length<E: Emit>(e: &E) -> usize
    ensures { result ≡ min (length (E.bytes e.now)) cap }
{
    let mut none = [0u8; 0];
    let mut counted = Output::new(&mut none);
    e.emit(&mut counted);
    counted.at
}

// The bytes are put at the front of a slice that has room for them.
pub fn put_into<E: Emit>(e: &E, out: &mut [u8])
    requires { length (E.bytes e.now) ≤ length out.old }
    ensures { out.new ≡ E.bytes e.now ++ drop (length (E.bytes e.now)) out.old }
{
    let mut front = Output::new(out);
    e.emit(&mut front);
}

// Refusal 21, with nothing written, or the bytes, and how many they are. Whoever counted them shows the bound.
pub fn written_of_length<E: Emit>(e: &E, n: usize, out: &mut [u8]) -> Result<usize, Refusal>
    requires { n ≡ min (length (E.bytes e.now)) cap }
    ensures { made_by result out.new ≡ outcome (answer [] (E.bytes e.now) (length out.old)) out.old }
{
    if out.len() < n {
        return Err(Refusal::ShortOutput);
    }
    put_into(e, out);
    Ok(n)
}

// The same, with a run into no room that counts them.
pub fn written<E: Emit>(e: &E, out: &mut [u8]) -> Result<usize, Refusal>
    ensures { made_by result out.new ≡ outcome (answer [] (E.bytes e.now) (length out.old)) out.old }
{
    let n = emitted_length(e);
    written_of_length(e, n, out)
}
