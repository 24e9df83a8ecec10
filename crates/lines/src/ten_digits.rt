// A number of ten digits in a field of eleven columns: its last eight digits are worked out side by side in one number of 64 bits.
ghost use Rattle.std.specs.Prelude.{◌≡◌, ◌+◌, ◌*◌, ◌/◌, ◌%◌, ◌^◌, ◌<◌, ◌≤◌, length, slice_set};
ghost use Rattle.lines.specs.Field as Field;
ghost use Rattle.lines.specs.PackedDigits.{Hundreds, Tens, two_digits, eight_digits};

// Writes a number of ten digits after a blank.
pub(crate) fn put_ten(field: &mut [u8], n: u32)
    requires { (length field.old ≡ 11) × (1000000000 ≤ n) }
    ensures { field.new ≡ Field.written 11 n }
{
    let last = eight_digits((n % 100000000) as u64);
    put_two(field, 9, last >> 48);
    put_two(field, 7, last >> 32);
    put_two(field, 5, last >> 16);
    put_two(field, 3, last);
    put_two(field, 1, two_digits((n / 100000000) as u64));
    field[0] = b' ';
}

// Writes the two lowest bytes of a number, the lower first.
fn put_two(field: &mut [u8], at: usize, bytes: u64)
    requires { at + 2 ≤ length field.old }
    ensures { field.new ≡ slice_set (slice_set field.old (at + 1) (bytes / 256 % 256)) at (bytes % 256) }
{
    field[at + 1] = (bytes / 256 % 256) as u8;
    field[at] = (bytes % 256) as u8;
}

// The digits of a number below 100 as bytes, of which 0x30 is the digit 0.
fn two_digits(p: u64) -> u64
    requires { p < 100 }
    ensures { result ≡ two_digits p }
{
    let tens = p / 10;
    256 * (p - 10 * tens) + tens + 0x3030
}

// The digits of a number below 10^8 as bytes: it is cut into two numbers of four digits, these into four of two, and these into digits.
#[tactic(auto, using(crate::proofs::numerals::EightDigitLaws::hundreds_fit, crate::proofs::numerals::EightDigitLaws::twos_few, crate::proofs::numerals::EightDigitLaws::tens_fit, crate::proofs::numerals::EightDigitLaws::digits_fit, crate::proofs::numerals::EightDigitLaws::digits_are_told))]
fn eight_digits(n: u64) -> u64
    requires { n < 100000000 }
    ensures { result ≡ eight_digits n }
{
    let fours = n / 10000 + n % 10000 * 0x1_0000_0000;
    let hundreds = hundreds_of(fours);
    let twos = (fours - 100 * hundreds) * 0x1_0000 + hundreds; // PackedDigitLaws.twos_are
    let tens = tens_of(twos);
    256 * (twos - 10 * tens) + tens + 0x3030_3030_3030_3030 // PackedDigitLaws.digits_are
}

// Both halves of a number, below 10000, divided by 100: 10486 / 2 ^ 20 is just above a hundredth. What the quotient has in the lower half from the upper one
// is a multiple of 128 (PackedDigitLaws.hundreds_are).
// Not one function with tens_of: it would take the factor, the shift, the width and the mask of each.
fn hundreds_of(x: u64) -> u64
    requires { x < 10000 * 2 ^ 32 }
    ensures { Hundreds x result }
{
    let q = x * 10486 / 0x10_0000;
    q % 128 + q / 0x1_0000_0000 * 0x1_0000_0000
}

// All quarters of a number, below 100, divided by 10: 103 / 2 ^ 10 is just above a tenth. What the quotient has in a quarter from those above it is a
// multiple of 16 (PackedDigitLaws.tens_are).
fn tens_of(x: u64) -> u64
    requires { x < 100 * 2 ^ 48 }
    ensures { Tens x result }
{
    let q = x * 103 / 1024;
    q % 16
        + q / 0x1_0000 % 16 * 0x1_0000
        + q / 0x1_0000_0000 % 16 * 0x1_0000_0000
        + q / 0x1_0000_0000_0000 * 0x1_0000_0000_0000
}
