// Signs and kinds of floats.
ghost use Rattle.std.specs.Prelude.{◌≡◌, not};
ghost use Rattle.std.specs.Float.Ieee as Ieee;
ghost use Rattle.std.specs.Float.Ieee.Scale as Scale;
ghost use Rattle.laws.specs.Exact as Exact;
ghost use Rattle.scalar.specs.Sign as Sign;

use crate::bits::{Parts, decode};

#[tactic(auto, using(crate::proofs::floats::SignLaws::nan_differs))]
pub fn is_nan(x: f32) -> bool
    ensures { result ≡ Ieee.is_nan x }
{
    x.is_nan()
}

#[tactic(auto, using(crate::proofs::floats::SignLaws::parts_finite))]
pub fn is_finite(x: f32) -> bool
    ensures { result ≡ Scale.finite x }
{
    matches!(decode(x), Parts::Fin(..))
}

// Whether the sign bit is set; a NaN's counts as clear.
#[tactic(auto, using(crate::proofs::floats::SignLaws::negatives))]
pub fn is_sign_negative(x: f32) -> bool
    ensures { result ≡ Exact.negative x }
{
    match decode(x) {
        Parts::Nan => false,
        Parts::Inf(s) | Parts::Fin(s, ..) => s,
    }
}

#[tactic(auto, using(crate::proofs::floats::SignLaws::sizes))]
pub fn abs(x: f32) -> f32
    ensures { result ≡ Sign.abs x }
{
    if is_sign_negative(x) { -x } else { x }
}

#[tactic(auto, using(crate::proofs::floats::SignLaws::copy))]
pub fn copysign(x: f32, sign: f32) -> f32
    ensures { result ≡ Sign.copysign x sign }
{
    let a = abs(x);
    if is_sign_negative(sign) { -a } else { a }
}

#[tactic(auto, using(crate::proofs::floats::SignLaws::signums))]
pub fn signum(x: f32) -> f32
    ensures { result ≡ Sign.signum x }
{
    if x.is_nan() {
        return x;
    }
    copysign(1.0, x)
}

// The sign bit of a pattern, a NaN's too: `is_sign_negative` shows none of a NaN.
pub fn is_sign_negative_bits(b: u32) -> bool
    ensures { result ≡ Sign.sign_bit b }
{
    b >= 0x8000_0000
}

// The pattern a with the sign bit of the pattern b, a NaN's too: `copysign` takes it for clear.
pub fn copysign_bits(a: u32, b: u32) -> u32
    ensures { result ≡ Sign.copysign_bits a b }
{
    let magnitude = a % 0x8000_0000;
    if b >= 0x8000_0000 {
        0x8000_0000 + magnitude
    } else {
        magnitude
    }
}
