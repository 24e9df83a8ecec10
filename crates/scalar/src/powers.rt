// Products with powers of two, rounded once, and sizes by their bits.
ghost use Rattle.std.specs.Prelude.{◌≡◌};
ghost use Rattle.scalar.specs.Powers as Powers;
ghost use Rattle.scalar.specs.SizeBits as SizeBits;

use crate::bits::{Parts, decode, pack, to_bits};
use crate::round_pack::{BIAS, round_pack};

// x times 2 ^ (149 - j), rounded once, whatever the power.
#[tactic(auto, using(crate::proofs::scaling::PowerLaws::products))]
pub fn times_power(x: f32, j: u32) -> f32
    ensures { result ≡ Powers.times_power j x }
{
    let Parts::Fin(s, q, k) = decode(x) else {
        return x; // PowerLaws.power_other
    };
    if j > BIAS {
        return pack(s, 0, 0); // below half the smallest value (PowerLaws.power_none)
    }
    round_pack(s, q as u64, k + BIAS - j) // PowerLaws.power_rounded
}

// 2 ^ (149 - j) itself, rounded: infinite where j is below 22. A product with it is rounded once
// where it is an f32 (PowerLaws.power_factor).
#[tactic(auto, using(crate::proofs::scaling::PowerLaws::powers))]
pub fn power_of_two(j: u32) -> f32
    ensures { result ≡ Powers.power_of_two j }
{
    if j < 22 || j > 298 {
        return times_power(1.0, j); // PowerLaws.power_of_one
    }
    if j > 275 {
        return pack(false, 1 << (298 - j), 0); // a subnormal f32 (PowerLaws.power_subnormal)
    }
    pack(false, 0x80_0000, 275 - j) // a normal one (PowerLaws.power_normal)
}

// The bits of the largest size of three numbers.
#[tactic(auto, unfolding(crate::specs::SizeBits::largest_bits))]
pub fn largest_bits(x: f32, y: f32, z: f32) -> u32
    ensures { result ≡ SizeBits.largest_bits x y z }
{
    (to_bits(x) % 0x8000_0000)
        .max(to_bits(y) % 0x8000_0000)
        .max(to_bits(z) % 0x8000_0000)
}

// The binary logarithm of the size with the bits b, in smallest values.
#[tactic(auto, using(crate::proofs::scaling::SizeBitsLaws::log2_cases))]
pub fn log2_of_bits(b: u32) -> u32
    ensures { result ≡ Powers.log2 (SizeBits.size_of_bits b) }
{
    if b >= 0x80_0000 {
        return b / 0x80_0000 + 22; // SizeBitsLaws.log2_normal
    }
    31 - u32::leading_zeros(b.max(1)) // SizeBitsLaws.log2_subnormal
}
