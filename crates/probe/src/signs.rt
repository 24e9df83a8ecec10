// The functions that look at a sign bit: those on numbers where no argument is a NaN, else those on
// bit patterns, in which a NaN has its sign. Both give the same wherever no NaN is asked for its sign
// (BitSignLaws of scalar, SignsLaws of vector).
ghost use Rattle.std.specs.Prelude.{◌≡◌};
ghost use Rattle.std.specs.Float.Ieee as Ieee;
ghost use Rattle.scalar.specs.Sign as Sign;
ghost use Rattle.vector.specs.Signs as Signs;

use crate::arguments::Patterns;
use scalar::bits::from_bits;
use scalar::sign;
use scalar::sign::is_nan;
use vector::vec3::Vec3;

#[tactic(auto, using(crate::proofs::NumberSigns::sign_of_number))]
pub(crate) fn is_sign_negative(a: u32) -> bool
    ensures { result ≡ Sign.sign_bit a }
{
    let x = from_bits(a);
    if is_nan(x) {
        sign::is_sign_negative_bits(a)
    } else {
        sign::is_sign_negative(x)
    }
}

#[tactic(auto, using(crate::proofs::NumberSigns::copysign_of_numbers))]
pub(crate) fn copysign(a: u32, b: u32) -> f32
    ensures { result ≡ Ieee.of_bits Ieee.binary32 (Sign.copysign_bits a b) }
{
    let x = from_bits(a);
    let y = from_bits(b);
    if is_nan(x) || is_nan(y) {
        from_bits(sign::copysign_bits(a, b))
    } else {
        sign::copysign(x, y)
    }
}

#[tactic(auto, using(crate::proofs::NumberSigns::bitmask_of_numbers))]
pub(crate) fn is_negative_bitmask(a: Patterns) -> u32
    ensures { result ≡ Signs.is_negative_bitmask_bits a.x a.y a.z }
{
    let v = a.vector();
    if v.is_nan() {
        Vec3::is_negative_bitmask_bits(a.x, a.y, a.z)
    } else {
        v.is_negative_bitmask()
    }
}

// The vector a with the signs of b.
#[tactic(auto, using(crate::proofs::NumberSigns::copysign_of_vectors))]
pub(crate) fn copysign_all(a: Patterns, b: Patterns) -> Vec3
    ensures { result ≡ Signs.copysign_bits a.x a.y a.z b.x b.y b.z }
{
    let v = a.vector();
    let w = b.vector();
    if v.is_nan() || w.is_nan() {
        Vec3::copysign_bits(a.x, a.y, a.z, b.x, b.y, b.z)
    } else {
        v.copysign(w)
    }
}
