// The remainder of significands in whole numbers: m * 2 ^ e modulo n, and the exact packing of what
// is left.
ghost use Rattle.std.specs.Prelude.{◌≡◌, ◌*◌, ◌%◌, ◌^◌, ◌<◌};
ghost use Rattle.std.specs.Float.Ieee as Ieee;
ghost use Rattle.std.specs.Float.{binary32};

use crate::bits::pack;

// m * 2 ^ e modulo n. Exponents are mostly near: m shifted left by up to 8 bits fits a word of 32,
// and one division does.
#[tactic(auto, using(crate::proofs::RestLaws::rest_near))]
pub(crate) fn rest(m: u32, e: u32, n: u32) -> u32
    requires { (m < 2 ^ 24) × (0 < n) × (n < 2 ^ 24) }
    ensures { result ≡ m * 2 ^ e % n }
{
    if e <= 8 {
        return (m << e) % n; // RestLaws.rest_near
    }
    far_rest(m, e, n)
}

// m * 2 ^ e modulo n, by (x mod n) * 2 ^ k mod n = x * 2 ^ k mod n (RestLaws.mod_first): what is
// left has 24 bits, so that a word of 64 holds it shifted left by 40. Exponents of floats are at
// most 253 apart: seven divisions.
fn far_rest(m: u32, e: u32, n: u32) -> u32
    requires { (m < 2 ^ 24) × (0 < n) × (n < 2 ^ 24) }
    ensures { result ≡ m * 2 ^ e % n }
{
    let by = n as u64;
    let mut r = m as u64;
    let mut left = e;
    // a `while`: `left` is no index but the bits still to be shifted, and the last shift needs it
    while left > 40 {
        r = (r << 40) % by; // r * 2 ^ left mod n stays (RestLaws.rest_more)
        left -= 40;
    }
    ((r << left) % by) as u32 // RestLaws.rest_last
}

// r * 2 ^ d smallest values as a float: exact, since r has 24 bits (RestLaws.repacked). Its
// significand is shifted left to 24 bits, or by d where that is less.
#[tactic(auto, using(crate::proofs::RestLaws::repacking))]
pub(crate) fn pack_exact(s: bool, r: u32, d: u32) -> f32
    requires { (r < 2 ^ 24) × (d < 254) }
    ensures { result ≡ Ieee.round binary32 s (r * 2 ^ d) (2 ^ 149) }
{
    if r == 0 {
        return pack(s, 0, 0); // RestLaws.repacks_none
    }
    let z = u32::leading_zeros(r) - 8; // 8 to 31 leading zeros (RootPartsLaws.zeros_in)
    if z < d {
        return pack(s, r << z, d - z); // RestLaws.repacks_full
    }
    pack(s, r << d, 0) // RestLaws.repacks_low
}
