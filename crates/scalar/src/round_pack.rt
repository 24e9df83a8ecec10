// The one rounding: a whole number times a power of two, to nearest even.
ghost use Rattle.std.specs.Prelude.{◌≡◌, ◌*◌, ◌^◌, ◌≤◌, ◌<◌};
ghost use Rattle.std.specs.Float.Ieee as Ieee;
ghost use Rattle.std.specs.Float.{binary32};
ghost use Rattle.std.specs.Float.Ieee.Nearest as Nearest;
ghost use Rattle.laws.specs.Sticky as Sticky;
ghost use Rattle.scalar.specs.FusedParts.{Normalized};

use crate::bits::pack;

// What is rounded is counted in 2 ^ -BIAS, so that its exponents are natural numbers.
pub const BIAS: u32 = 426;

// Above this exponent 24 bits of a 64-bit number are kept, and 40 dropped.
const FULL: u32 = BIAS - 149 - 40;
// Up to it the bits below the smallest value, 2 ^ -149, are dropped: of 63 bits one less than of
// 64.
const LOW: u32 = BIAS - 149 - 1;

// ±v times 2 ^ (e - BIAS) as an f32, rounded once to nearest even.
pub fn round_pack(negative: bool, v: u64, e: u32) -> f32
    ensures { result ≡ Ieee.round binary32 negative (v * 2 ^ e) (2 ^ 426) }
{
    if v == 0 {
        return pack(negative, 0, 0); // RoundPackLaws.round_zero
    }
    let z = u64::leading_zeros(v);
    let w = normalized(v);
    if e > z + FULL {
        // the unit in the last place is 2 ^ k smallest values (RoundPackLaws.ulp_full)
        let k = e - (z + FULL);
        if k > 253 {
            return pack(negative, 0x100_0000, 253); // infinity (RoundPackLaws.ulp_inf)
        }
        return pack(negative, nearest(w, 39), k); // RoundPackLaws.ulp_round
    }
    let g = z + LOW - e; // the unit in the last place is the smallest value (RoundPackLaws.ulp_low)
    if g > 63 {
        return pack(negative, 0, 0); // below half of it (RoundPackLaws.ulp_none)
    }
    pack(negative, nearest(w, g), 0) // RoundPackLaws.ulp_round
}

// v normalized to 63 bits: shifted left, or right by one with a sticky bit where it has 64.
#[tactic(auto, using(crate::proofs::products::WordLaws::normalizes))]
fn normalized(v: u64) -> u64
    requires { 0 < v }
    ensures { Normalized v result }
{
    let z = u64::leading_zeros(v);
    if z == 0 {
        return shift_right_sticky(v, 1); // WordLaws.normalized_full
    }
    v << (z - 1) // WordLaws.normalized_shifted
}

// w / 2 ^ g rounded to nearest even, by the carry of a sum (CarryLaws.closest_carry).
#[tactic(auto, using(crate::proofs::products::WordLaws::carries))]
fn nearest(w: u64, g: u32) -> u32
    requires { (w < 2 ^ 63) × (39 ≤ g) × (g ≤ 63) }
    ensures { result ≡ Nearest.closest w (2 ^ g) }
{
    let odd = (w >> g) % 2;
    let half = 1u64 << (g - 1); // 2 ^ (g - 1) (WordLaws.half_word)
    ((w + (half - 1) + odd) >> g) as u32 // WordLaws.carried; below 2 ^ 32 (WordLaws.quotient_fits)
}

// v shifted right by d, with a sticky bit: the last bit is set where a bit that is not 0 was
// dropped.
pub(crate) fn shift_right_sticky(v: u64, d: u32) -> u64
    ensures { result ≡ Sticky.sticky v (2 ^ d) }
{
    let c = d.min(63); // a shift by more drops the same (WordLaws.shift_within)
    let h = v >> c;
    if h << c == v { h } else { h / 2 * 2 + 1 } // StickyLaws.sticky_whole, StickyLaws.sticky_lossy
}
