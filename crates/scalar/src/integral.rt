// Whole results: toward zero, downward, to the nearest. From 2 ^ 23 on every float is whole
// (IntegralSums.large_stays).
ghost use Rattle.std.specs.Prelude.{◌≡◌, true, not, cond, ◌-◌, T, ltb};
ghost use Rattle.std.specs.Float.Ieee as Ieee;
ghost use Rattle.std.specs.Float.{binary32};
ghost use Rattle.scalar.specs.Integral as Integral;
ghost use Rattle.scalar.specs.Sign as Sign;

use crate::sign::copysign_bits;

// 2 ^ 23: from here on a float has no bit below 1.
const WHOLE: f32 = 8388608.0;

// Toward zero: the bits that count less than 1 are cleared (IntegralBits.trunc_bits).
#[tactic(auto, using(crate::proofs::whole_numbers::IntegralSums::truncates))]
pub fn trunc(x: f32) -> f32
    ensures { result ≡ Integral.trunc x }
{
    if x.is_nan() {
        return x;
    }
    let b = f32::to_bits(x);
    let d = fraction_bits(b % 0x8000_0000 / 0x80_0000);
    f32::from_bits((b >> d) << d)
}

// Downward: the nearest whole number, or one less where that is above x (IntegralSums.floor_near).
pub fn floor(x: f32) -> f32
    ensures { result ≡ Integral.floor x }
{
    if x.is_nan() {
        return x;
    }
    if size(x) < WHOLE {
        let w = near(x);
        let above = x < w;
        return if above { w - 1.0 } else { w };
    }
    x
}

// To the nearest whole number, ties to even.
#[tactic(auto, using(crate::proofs::whole_numbers::IntegralSums::stays))]
pub fn round(x: f32) -> f32
    ensures { result ≡ Integral.round_even x }
{
    if x.is_nan() {
        return x;
    }
    if size(x) < WHOLE {
        return near(x);
    }
    x
}

// The whole number nearest to a number below 2 ^ 23 in size, ties to even: the sum of its size and
// 2 ^ 23 has 1 as its unit in the last place, and the difference is exact (WholeLaws.near_whole).
fn near(x: f32) -> f32
    requires { Ieee.lt (Sign.abs x) (Ieee.of_bits binary32 0x4b000000) ≡ true }
    ensures { result ≡ Integral.round_even x }
{
    signed((size(x) + WHOLE) - WHOLE, x)
}

// How many bits of a pattern count less than 1, e being its exponent: all but the sign's below 1,
// none from 2 ^ 23 on.
fn fraction_bits(e: u32) -> u32
    ensures { result ≡ cond (ltb e 127) 31 (150 - e) }
{
    if e < 127 {
        return 31;
    }
    150 - e.min(150)
}

// The size of a number: `abs` with no test for a NaN.
#[tactic(auto, using(crate::proofs::floats::BitSignLaws::abs_bits))]
fn size(x: f32) -> f32
    requires { T (not (Ieee.is_nan x)) }
    ensures { result ≡ Sign.abs x }
{
    f32::from_bits(f32::to_bits(x) % 0x8000_0000)
}

// The number w with the sign of the number x: `copysign` with no test for a NaN.
fn signed(w: f32, x: f32) -> f32
    requires number { T (not (Ieee.is_nan w)) }
    requires sign_number { T (not (Ieee.is_nan x)) }
    ensures { result ≡ Sign.copysign w x }
{
    f32::from_bits(copysign_bits(f32::to_bits(w), f32::to_bits(x)))
}
