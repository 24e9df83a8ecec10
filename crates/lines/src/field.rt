// One field: its digits after the blanks, the number that they give, and a number written.
ghost use Rattle.std.specs.Prelude.{◌≡◌, ◌+◌, ◌/◌, ◌%◌, ◌<◌, ◌≤◌, length};
ghost use Rattle.lines.specs.Field as Field;
ghost use Rattle.lines.specs.ColumnParts as ColumnParts;

use crate::ten_digits::put_ten;

// The part of the field after its blanks.
pub fn digits(field: &[u8]) -> &[u8]
    ensures { result.now ≡ Field.digits field.now }
{
    let blanks = field.iter().position(|b| *b != b' ').unwrap_or(field.len());
    &field[blanks..]
}

// The number that decimal digits give.
#[tactic(auto, using(crate::proofs::numerals::ReadLaws::long_ill), unfolding(crate::specs::Field::number))]
pub fn number(digits: &[u8]) -> Option<u32>
    ensures { result ≡ Field.number digits.now }
{
    if digits.is_empty() || leading_zero(digits) {
        return None;
    }
    if 10 < digits.len() {
        return None; // above the limit: ten digits follow one that is not zero
    }
    value(digits)
}

// Whether a zero has digits after it.
#[tactic(auto, unfolding(crate::specs::Field::leading_zero))]
fn leading_zero(digits: &[u8]) -> bool
    ensures { result ≡ Field.leading_zero digits.now }
{
    1 < digits.len() && digits[0] == b'0'
}

// The number of at most ten digits. It is below 10^10, so that the limit is tested once, at the end.
#[tactic(auto, using(crate::proofs::numerals::ReadLaws::other_value, crate::proofs::numerals::ReadLaws::reads_all))]
fn value(digits: &[u8]) -> Option<u32>
    requires { length digits.now ≤ 10 }
    ensures { result ≡ Field.value digits.now }
{
    let mut n: u64 = 0;
    for b in digits {
        let a = digit(*b);
        if 9 < a {
            return None;
        }
        n = n * 10 + a;
    }
    limited(n)
}

// A number up to the limit.
#[tactic(auto, unfolding(crate::specs::ColumnParts::limited))]
fn limited(n: u64) -> Option<u32>
    ensures { result ≡ ColumnParts.limited n }
{
    u32::try_from(n).ok()
}

// The value of a decimal digit, and a number above 9 for any other byte: below 48 the difference wraps.
// Speed: an Option of it takes 57 instructions of 901 a line more, 3 hundredths of the time.
pub(crate) fn digit(b: u8) -> u64
    ensures { ColumnParts.DigitValue b result }
{
    (b as u64).wrapping_sub(b'0' as u64)
}

// Writes the number, right-justified after blanks. A field with fewer columns than the number has digits gets its last digits.
#[tactic(auto, using(crate::proofs::numerals::WriteLaws::spelt_none, crate::proofs::numerals::WriteLaws::spelt_one, crate::proofs::numerals::WriteLaws::spelt_more, crate::proofs::numerals::WriteLaws::spelt_all))]
pub fn put_number(field: &mut [u8], n: u32)
    ensures { field.new ≡ Field.written (length field.old) n }
{
    let w = field.len();
    if w == 0 {
        return;
    }
    if w == 11 && 1000000000 <= n {
        put_ten(field, n); // the bits of a value mostly have ten digits
        return;
    }
    if n < 10 {
        put_digit(field, n);
        return;
    }
    let last = w - 1;
    field[last] = b'0' + (n % 10) as u8;
    let mut rest = n / 10;
    for i in (0..last).rev() {
        field[i] = glyph(rest);
        rest /= 10;
    }
}

// Writes a number of one digit after blanks: unused values of an answer are 0, and refusals and kinds have one digit.
#[tactic(auto, using(crate::proofs::numerals::NumeralLaws::digit_written))]
fn put_digit(field: &mut [u8], n: u32)
    requires { (0 < length field.old) × (n < 10) }
    ensures { field.new ≡ Field.written (length field.old) n }
{
    let last = field.len() - 1;
    field[..last].fill(b' ');
    field[last] = b'0' + n as u8;
}

// The last digit of what is left of a number, or a blank where nothing is left.
#[tactic(auto, unfolding(crate::specs::Field::glyph))]
fn glyph(rest: u32) -> u8
    ensures { result ≡ Field.glyph rest }
{
    if rest == 0 {
        b' '
    } else {
        b'0' + (rest % 10) as u8
    }
}
