// The standard streams: reading and writing them, and why that failed.
ghost use Rattle.std.specs.Prelude.{length, IsOkUnless};
ghost use Rattle.bench.specs.Counts.{Moved};

use std::io::{Print, Read, Stdin, Stdout};

// Why the input was not answered to its end.
#[derive(Clone, Copy, PartialEq, Eq)]
pub(crate) enum Failure {
    Reading,
    Writing,
    TooManyReads,
}

impl Failure {
    // What the program says of it on standard error.
    // Tried as `Display`: `eprintln!` adds memcpy of the C library and 2,812 bytes to the program.
    pub(crate) fn message(self) -> &'static str {
        match self {
            Failure::Reading => "bench: reading standard input failed\n",
            Failure::Writing => "bench: writing standard output failed\n",
            Failure::TooManyReads => "bench: the input has more parts than can be counted\n",
        }
    }
}

// Reads up to as many bytes as the chunk has. Gives how many lie at its start, 0 at the end of the
// input.
pub(crate) fn read(mut stdin: Stdin, chunk: &mut [u8]) -> Result<usize, Failure>
    ensures { Moved (length chunk.new) result }
{
    stdin.read(chunk).map_err(|_| Failure::Reading)
}

// Writes the bytes to standard output, all of them unless it fails. `Writing` is its one failure, as
// that of `hand_over` and `answer_some`: a type for it alone would want a `From` and say no more.
pub(crate) fn write_all(stdout: Stdout, bytes: &[u8]) -> Result<(), Failure>
    ensures { IsOkUnless result Failure.Writing }
{
    stdout.write_all(bytes).map_err(|_| Failure::Writing)
}
