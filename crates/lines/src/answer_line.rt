// Writing an answer line: three fields of three columns, three of eleven, and a line feed.
ghost use Rattle.std.specs.Prelude.{◌≡◌, ◌+◌, ◌≤◌, length};
ghost use Rattle.lines.specs.AnswerLine as AnswerLine;
ghost use Rattle.lines.specs.ColumnParts.{put_field};

use crate::field::put_number;

// The bytes of an answer line, its line feed too.
pub const ANSWER_LENGTH: usize = 43;

// Writes the six numbers as an answer line over the first 43 bytes of out; where fewer are lent, writes nothing.
// Six numbers, and no array: `answer_into` and `answer_line` name each of them.
#[tactic(auto, using(crate::proofs::columns::AnswerLineLaws::put_line, crate::proofs::columns::AnswerLineLaws::put_none))]
pub fn put_six(out: &mut [u8], refusal: u32, row: u32, kind: u32, x: u32, y: u32, z: u32)
    ensures { out.new ≡ AnswerLine.answer_into refusal row kind x y z out.old }
{
    if out.len() < ANSWER_LENGTH {
        return;
    }
    put_field(out, 0, 3, refusal);
    put_field(out, 3, 3, row);
    put_field(out, 6, 3, kind);
    put_field(out, 9, 11, x);
    put_field(out, 20, 11, y);
    put_field(out, 31, 11, z);
    out[ANSWER_LENGTH - 1] = b'\n';
}

// Writes a field of w columns from `at` on.
#[tactic(auto, using(crate::proofs::columns::ColumnLaws::put_part))]
fn put_field(out: &mut [u8], at: usize, w: usize, n: u32)
    requires { at + w ≤ length out.old }
    ensures { out.new ≡ put_field at w n out.old }
{
    let end = at + w;
    put_number(&mut out[at..end], n);
}
