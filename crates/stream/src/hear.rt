// What the next bytes of an input come to.
ghost use Rattle.std.specs.Prelude.{◌≡◌, ◌<◌, length};
ghost use Rattle.stream.specs.Turns.{Hears};

use lines::command_line::{LINE_LENGTH, fields};
use sheet::step::COMMAND_NUMBERS;

// The bytes of a command line with its line feed.
const WITH_FEED: usize = LINE_LENGTH + 1;

// The numbers of a line that ends in the next bytes, so many of them; a line that is ill formed; or a byte of a line.
#[derive(Clone, Copy)]
pub(crate) enum Heard {
    Run(usize),
    Ill,
    Byte(u8),
}

// The next byte, after the bytes of a line that has not ended. The numbers of a line go to f.
#[tactic(auto, using(crate::proofs::turns::HearLaws::read_none))]
fn hear_byte(bytes: &[u8], i: usize, text: &[u8], f: &mut [u32; COMMAND_NUMBERS]) -> Heard
    requires { i < length bytes.now }
    ensures { Hears bytes.now i text.now f.new result }
{
    let b = bytes[i];
    if b != b'\n' {
        Heard::Byte(b)
    } else if fields(text, f) {
        Heard::Run(1)
    } else {
        Heard::Ill
    }
}

// The next bytes. A whole command line that lies in the input is read where it lies.
pub(crate) fn hear(bytes: &[u8], i: usize, text: &[u8], f: &mut [u32; COMMAND_NUMBERS]) -> Heard
    requires { i < length bytes.now }
    ensures { Hears bytes.now i text.now f.new result }
{
    if text.is_empty() && WITH_FEED <= bytes.len() - i {
        let end = i + LINE_LENGTH;
        if bytes[end] == b'\n' && fields(&bytes[i..end], f) {
            return Heard::Run(WITH_FEED);
        }
    }
    hear_byte(bytes, i, text, f)
}
