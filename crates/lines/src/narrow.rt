// A field of three columns, read without a branch on how many digits it has: a processor often
// mispredicts such a branch, and that takes longer than the reading.
// Speed: the functions of `field`, for any width, take 5 to 7 hundredths of a line more.
ghost use Rattle.std.specs.Prelude.{◌≡◌, ◌≤◌, length, ◌==◌};
ghost use Rattle.lines.specs.Field as Field;
ghost use Rattle.lines.specs.ColumnParts as ColumnParts;

use crate::field::digit;

#[tactic(auto, unfolding(crate::specs::ColumnParts::bit))]
fn is_blank(b: u8) -> usize
    ensures { (result ≤ 1) × (result ≡ ColumnParts.bit (b == Field.blank)) }
{
    usize::from(b == b' ')
}

// The part of the field after its blanks. A column counts where it is blank and those before it are.
#[tactic(auto, using(crate::proofs::numerals::ReadLaws::part_from, crate::proofs::numerals::NarrowLaws::after_blanks))]
pub(crate) fn digits(field: &[u8]) -> &[u8]
    requires { length field.now ≡ 3 }
    ensures { result.now ≡ Field.digits field.now }
{
    let blanks = is_blank(field[0]) * (1 + is_blank(field[1]) * (1 + is_blank(field[2])));
    &field[blanks..]
}

// The number of up to three digits. Where there are no hundreds, or no tens, another digit is read in their place and counts nothing.
#[tactic(auto, using(crate::proofs::numerals::NarrowLaws::none_ill, crate::proofs::numerals::NarrowLaws::other_ill))]
pub(crate) fn number(digits: &[u8]) -> Option<u32>
    requires { length digits.now ≤ 3 }
    ensures { result ≡ Field.number digits.now }
{
    let n = digits.len();
    if n == 0 {
        return None;
    }
    let tens = n / 2; // 1 where there are two digits or three, 0 where there is one
    let hundreds = (n - 1) / 2; // 1 where there are three, else 0
    let a = digit(digits[0]);
    let b = digit(digits[hundreds]);
    let c = digit(digits[n - 1]);
    if 9 < a || 9 < b || 9 < c {
        return None;
    }
    if a < tens as u64 {
        return None; // a zero with digits after it
    }
    Some((a * 100 * hundreds as u64 + b * 10 * tens as u64 + c) as u32)
}
