// Reads a call list from standard input and prints the change list's lines, or `refused` and the number. A read or a write that fails is said on
// standard error.
#![tactic(auto)]

ghost use Rattle.std.specs.Prelude.{IfOk, ◌<◌, length, take};
ghost use Rattle.std.specs.Counts.{IsPrefixLen};
ghost use Rattle.std.specs.Io.KnownBytes.{Consumes, IsAtEnd};

use lines::program;
use std::io;
use std::io::Read;

// Reads until the list is full or the input ends, and gives how many bytes stand at its start: those that the input had next. A read that fails ends
// it with that error. By `while`: `read_exact` fails at a shorter list, and `read_to_end` wants a `Vec`, where the project has no heap.
fn read_list<R: Read>(input: &mut R, list: &mut [u8]) -> io::Result<usize>
    ensures within { IfOk result (λ n. IsPrefixLen n list.new) }
    ensures bytes { IfOk result (λ n. Consumes (R.remaining input.old) (R.remaining input.new) (take n list.new)) }
    ensures whole { IfOk result (λ n. n < length list.new → IsAtEnd (R.remaining input.new)) }
{
    let mut done: usize = 0;
    while done < list.len() {
        let more = input.read(&mut list[done..])?;
        if more == 0 {
            break;
        }
        done += more;
    }
    Ok(done)
}

fn main(rt: HostRuntime) {
    let mut list = [0u8; 65536];
    let Ok(n) = read_list(&mut rt.stdin(), &mut list) else {
        let _ = eprintln!(rt; "bucketlines: a read failed");
        return;
    };
    let mut text = [0u8; 262144];
    let m = program::bucket_lines(&list[..n], &mut text);
    if rt.write_all(&text[..m]).is_err() {
        let _ = eprintln!(rt; "bucketlines: a write failed");
    }
}
