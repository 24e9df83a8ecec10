// Lines on a sheet: one line with its answer line, and the bytes of an input, however they come.
#![tactic(auto)]

mod answers;
pub mod feed;
mod hear;
pub mod respond;

use lines::command_line::LINE_LENGTH;

// How many bytes of a line are held: one more than a command line has.
pub const KEPT: usize = LINE_LENGTH + 1;

// The bytes of a line that has not ended: at most 46, so that a longer line is told from one of 45. The sheet lies in words that the caller lends.
// A buffer with its length beside it: `feed` promises an answer for any Stream, `len` above 46 too.
#[derive(Clone, Copy)]
pub struct Stream {
    pub line: [u8; KEPT],
    pub len: usize,
}
