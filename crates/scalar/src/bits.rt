// A float's bits, and its parts.
ghost use Rattle.std.specs.Prelude.{◌≡◌};
ghost use Rattle.std.specs.Float.Ieee as Ieee;
ghost use Rattle.std.specs.Float.{binary32};
ghost use Rattle.scalar.specs.Parts.{Decoded, Packs};

// The float of a bit pattern; each NaN pattern gives the one NaN.
#[tactic(auto, using(crate::proofs::floats::SignLaws::patterns))]
pub fn from_bits(b: u32) -> f32
    ensures { result ≡ Ieee.of_bits binary32 b }
{
    let m = b % 0x8000_0000;
    if m > 0x7f80_0000 {
        return f32::NAN;
    }
    f32::from_bits(b)
}

// The bit pattern of a float; 0x7FC00000 for a NaN.
#[tactic(auto, using(crate::proofs::floats::BitsLaws::bits_read))]
pub fn to_bits(x: f32) -> u32
    ensures { result ≡ Ieee.to_bits binary32 x }
{
    if x.is_nan() {
        return 0x7fc0_0000;
    }
    f32::to_bits(x)
}

// A float taken apart: `Fin(s, q, k)` is q times 2 ^ k of the smallest values, negative where s is
// true. Its own enum: it has three cases, an Option or a Result two.
#[derive(Clone, Copy)]
pub(crate) enum Parts {
    Nan,
    Inf(bool),
    Fin(bool, u32, u32),
}

pub(crate) fn decode(x: f32) -> Parts
    ensures { Decoded result x }
{
    if x.is_nan() {
        return Parts::Nan;
    }
    let b = f32::to_bits(x);
    let s = b >= 0x8000_0000;
    let e = b % 0x8000_0000 / 0x80_0000;
    let t = b % 0x80_0000;
    if e == 255 {
        return Parts::Inf(s);
    }
    if e == 0 {
        return Parts::Fin(s, t, 0);
    }
    Parts::Fin(s, t + 0x80_0000, e - 1)
}

// q times 2 ^ k of the smallest values. A q of 2 ^ 24 carries into the exponent, and at the top to
// infinity.
#[tactic(auto, using(crate::proofs::floats::PackLaws::packing))]
pub(crate) fn pack(s: bool, q: u32, k: u32) -> f32
    requires { Packs q k }
    ensures { result ≡ Ieee.units binary32 s q k }
{
    let b = k * 0x80_0000 + q;
    if s {
        return f32::from_bits(b + 0x8000_0000);
    }
    f32::from_bits(b)
}
