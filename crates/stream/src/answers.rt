// Writing an answer line at a place of the lent bytes.
ghost use Rattle.std.specs.Prelude.{◌≡◌, ◌+◌, ◌≤◌, length};
ghost use Rattle.lines.specs.AnswerLine.{answer_length};
ghost use Rattle.stream.specs.Turns.{answer_from, answered_at};

use lines::answer_line::{ANSWER_LENGTH, put_six};
use sheet::answer::ANSWER_NUMBERS;

// Writes the line of an answer's six numbers over the 43 bytes from `at` on.
#[tactic(auto, using(crate::proofs::turns::AnswerLaws::answered_part))]
pub(crate) fn put_line(out: &mut [u8], at: usize, six: &[u32; ANSWER_NUMBERS])
    requires { at + answer_length ≤ length out.old }
    ensures { out.new ≡ answered_at at (answer_from six.now) out.old }
{
    let [refusal, row, kind, x, y, z] = *six;
    let line = &mut out[at..at + ANSWER_LENGTH];
    put_six(line, refusal, row, kind, x, y, z);
}
