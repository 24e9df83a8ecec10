// Answers each call line of standard input: a function's number and its arguments.
#![tactic(auto)]

mod answer;
mod arguments;
mod call;
mod functions;
mod masks;
mod output;
mod results;
mod scalars;
mod shown;
mod signs;
mod vectors;

ghost use Rattle.std.specs.Prelude.{◌+◌, ◌*◌, ◌≤◌, ◌≡◌, length};
ghost use Rattle.probe.specs.Bounds.{longest};

use answer::Refusal;
use call::{Call, Field};
use output::{CAPACITY, Output};
use std::fmt;
use std::io::{Print, Read};

// How many bytes are read at a time: as many longest lines fit the output.
const CHUNK: usize = 851;

// Why the program stops before its input ends.
#[derive(Clone, Copy)]
enum Failure {
    Read,
    Write,
}

impl fmt::Display for Failure {
    fn fmt<W: fmt::Write>(&self, f: &mut fmt::Formatter<W>) -> fmt::Result {
        match self {
            Failure::Read => write!(f, "reading standard input failed"),
            Failure::Write => write!(f, "writing standard output failed"),
        }
    }
}

// Answers the lines that end in the bytes, and gives how many bytes it read: counted by hand, so
// that the contract can say that none is skipped.
fn answer_all(call: &mut Call, bytes: &[u8], output: &mut Output) -> usize
    requires { output.old.count + length bytes.now * longest ≤ CAPACITY }
    ensures { result ≡ length bytes.now }
{
    let mut last = call.last;
    let mut consumed = 0;
    for byte in bytes.iter().copied() {
        consumed += 1;
        if byte == b'\n' {
            output.put(call.answer(last));
            call.clear();
            last = Field::Empty;
        } else {
            last = call.read(last, byte);
        }
    }
    call.last = last;
    consumed
}

// Answers standard input. The bytes behind its last line feed are malformed.
// A proved loop has to end: this one counts its turns, up to a number that no run reaches.
fn answer_input(rt: HostRuntime) -> Result<(), Failure> {
    let mut call = Call::new();
    let mut chunk = [0; CHUNK];
    let mut output = Output::new();
    let mut input = rt.stdin();
    for _ in 0..u64::MAX {
        let n = input.read(&mut chunk).map_err(|_| Failure::Read)?;
        if n == 0 {
            break;
        }
        answer_all(&mut call, &chunk[..n], &mut output);
        output.write(rt.stdout()).map_err(|_| Failure::Write)?;
    }
    if !call.is_empty() {
        output.put(Err(Refusal::Malformed));
        output.write(rt.stdout()).map_err(|_| Failure::Write)?;
    }
    Ok(())
}

fn main(rt: HostRuntime) {
    if let Err(failure) = answer_input(rt) {
        // Nothing is left to say where that fails too.
        let _ = eprintln!(rt; "probe: {failure}");
    }
}
