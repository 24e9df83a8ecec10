// Writing answer lines: the refusal and the results in decimal.
ghost use Rattle.std.specs.Prelude.{◌≡◌, ◌+◌, ◌≤◌};
ghost use Rattle.probe.specs.Bounds.{longest};
ghost use Rattle.probe.specs.declared.output.TheConstants.{CAPACITY};

use crate::answer::Answer;
use lines::field::put_number;
use std::io;
use std::io::{Stdout, Write};

// How many bytes wait for a write at the most.
pub(crate) const CAPACITY: usize = 65536;

// The lines that are not written yet: the first `count` of the bytes.
// The memory is fixed, so that the count stands beside its array; `room` ties them.
#[derive(Drop)]
pub(crate) struct Output {
    bytes: [u8; CAPACITY],
    pub count: usize,
    ghost room: { count ≤ CAPACITY },
}

impl Output {
    pub(crate) fn new() -> Output
        ensures { result.count ≡ 0 }
    {
        Output {
            bytes: [0; CAPACITY],
            count: 0,
        }
    }

    // Adds an answer's line.
    pub(crate) fn put(&mut self, answer: Answer)
        requires { self.old.count + longest ≤ CAPACITY }
        ensures { self.new.count ≤ self.old.count + longest }
    {
        let (refusal, results) = match answer {
            Ok(results) => (0, results),
            Err(refusal) => (u32::from(refusal), refusal.results()),
        };
        self.put_number(refusal);
        for word in results.shown() {
            self.put_byte(b' ');
            self.put_number(*word);
        }
        self.put_byte(b'\n');
    }

    // Writes the lines to standard output.
    pub(crate) fn write(&mut self, mut stdout: Stdout) -> io::Result<()>
        ensures { self.new.count ≡ 0 }
    {
        let end = self.count;
        self.count = 0;
        stdout.write_all(&self.bytes[..end])
    }

    fn put_byte(&mut self, byte: u8)
        requires { self.old.count + 1 ≤ CAPACITY }
        ensures { self.new.count ≡ self.old.count + 1 }
    {
        self.bytes[self.count] = byte;
        self.count += 1;
    }

    // Adds a number, in as many bytes as it has digits.
    fn put_number(&mut self, n: u32)
        requires { self.old.count + 10 ≤ CAPACITY }
        ensures { self.new.count ≤ self.old.count + 10 }
    {
        let end = self.count + digits(n);
        put_number(&mut self.bytes[self.count..end], n);
        self.count = end;
    }
}

// How many digits the number has. One digit, as a refusal has, needs no logarithm.
fn digits(n: u32) -> usize
    ensures { result ≤ 10 }
{
    match n {
        0..=9 => 1,
        _ => n.checked_ilog10().map_or(1, |log| log as usize + 1),
    }
}
