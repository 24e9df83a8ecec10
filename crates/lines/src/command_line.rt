// The seven numbers of a command line: four fields of three columns, three of eleven.
ghost use Rattle.std.specs.Prelude.{◌≡◌, ◌+◌, ◌≤◌, length};
ghost use Rattle.lines.specs.Columns as Columns;
ghost use Rattle.lines.specs.CommandLine as CommandLine;

use crate::field::{digits, number};
use crate::narrow;

// The bytes of a command line, without its line feed.
pub const LINE_LENGTH: usize = 45;

// Reads the numbers of a line into the first seven places of f, and answers whether it did: it does
// not where the line is ill formed, nor where fewer than seven places are lent.
// A flag beside f, and no Option: the clauses `read` and `places` promise it of each length of f.
#[tactic(auto, unfolding(crate::specs::CommandLine::read_into, crate::specs::CommandLine::is_read, crate::specs::CommandLine::places_after))]
pub fn fields(line: &[u8], f: &mut [u32]) -> bool
    ensures read { result ≡ CommandLine.is_read (CommandLine.read_into line.now f.old) }
    ensures places { f.new ≡ CommandLine.places_after (CommandLine.read_into line.now f.old) f.old }
{
    let Some(places) = f.first_chunk_mut::<7>() else {
        return false;
    };
    let Some(seven) = numbers(line) else {
        return false;
    };
    *places = seven;
    true
}

// The seven numbers of a line, or none where it is ill formed.
#[tactic(auto, unfolding(crate::specs::CommandLine::numbers, crate::specs::Columns::numbers_at, crate::specs::Columns::both))]
fn numbers(line: &[u8]) -> Option<[u32; 7]>
    ensures { result ≡ CommandLine.numbers line.now }
{
    if line.len() != LINE_LENGTH {
        return None;
    }
    Some([
        field_of::<3>(line, 0)?,
        field_of::<3>(line, 3)?,
        field_of::<3>(line, 6)?,
        field_of::<3>(line, 9)?,
        field_of::<11>(line, 12)?,
        field_of::<11>(line, 23)?,
        field_of::<11>(line, 34)?,
    ])
}

// The number of the W columns from `at` on. The width is a constant, so that the loop over its
// blanks is unrolled.
#[tactic(auto, using(crate::proofs::columns::ColumnLaws::read_part, crate::proofs::numerals::NarrowLaws::fewer_digits))]
fn field_of<const W: usize>(line: &[u8], at: usize) -> Option<u32>
    requires { at + W ≤ length line.now }
    ensures { result ≡ Columns.field_at at W line.now }
{
    let end = at + W;
    let field = &line[at..end];
    if W == 3 {
        narrow::number(narrow::digits(field))
    } else {
        number(digits(field))
    }
}
