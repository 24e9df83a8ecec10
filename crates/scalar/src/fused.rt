// The fused multiply-add: the product and the third argument are shifted right to the larger
// exponent with a sticky bit, added, and rounded once.
ghost use Rattle.std.specs.Prelude.{◌≡◌, cond, ◌+◌, ◌-◌, ◌*◌, ◌^◌, ◌<◌};
ghost use Rattle.std.specs.Float.Ieee as Ieee;
ghost use Rattle.std.specs.Float.{binary32};
ghost use Rattle.laws.specs.Within.{distance};
ghost use Rattle.scalar.specs.Fused as Fused;
ghost use Rattle.scalar.specs.FusedParts.{Factored, Terms};

use crate::bits::{Parts, decode};
use crate::round_pack::{BIAS, round_pack, shift_right_sticky};

// The exponent of a product of two factors in 2 ^ -172, its 48 bits shifted left by 14.
const PRODUCT: u32 = BIAS - 2 * 172 - 14;

// The exponent of a number in 2 ^ -149, its 24 bits shifted left by 38.
const TERM: u32 = BIAS - 149 - 38;

// a times b plus c, rounded once.
#[tactic(auto, using(crate::proofs::products::FusedLaws::multiply_adds))]
pub fn mul_add(a: f32, b: f32, c: f32) -> f32
    ensures { result ≡ Fused.mul_add a b c }
{
    let Some(x) = factor_of(a) else {
        return a * b + c; // FusedLaws.plain_first
    };
    let Some(y) = factor_of(b) else {
        return a * b + c; // FusedLaws.plain_second
    };
    let Parts::Fin(u, q, g) = decode(c) else {
        return c; // FusedLaws.other_term
    };
    let p = (x.m as u64) * (y.m as u64); // 2 ^ 46 ≤ p < 2 ^ 48 (FusedLaws.product_in)
    // the terms meet what `aligned` requires (FusedLaws.terms), and their sum is a * b + c
    // (FusedLaws.number_sum)
    aligned(
        x.negative != y.negative,
        p << 14,
        x.k + y.k + PRODUCT,
        u,
        (q as u64) << 38,
        g + TERM,
    )
}

// A factor: ±m times 2 ^ (k - 172), m of 24 bits.
#[derive(Clone, Copy)]
struct Factor {
    negative: bool,
    m: u32,
    k: u32,
}

// x as a factor; none for a NaN, an infinity or a zero, with which each product is exact.
#[tactic(auto, using(crate::proofs::products::FusedLaws::factors))]
fn factor_of(x: f32) -> Option<Factor>
    ensures { Factored result x }
{
    let Parts::Fin(negative, q, k) = decode(x) else {
        return None;
    };
    if q == 0 {
        return None; // FusedLaws.plain_zero
    }
    if q < 0x80_0000 {
        let z = u32::leading_zeros(q) - 8; // z ≤ 23 (FusedLaws.zeros_left)
        return Some(Factor {
            negative,
            m: q << z,
            k: 23 - z,
        }); // FusedLaws.factor_short
    }
    Some(Factor {
        negative,
        m: q,
        k: k + 23,
    }) // FusedLaws.factor_full
}

// ±x times 2 ^ i plus ±y times 2 ^ j, counted in 2 ^ -BIAS, rounded once.
#[tactic(auto, using(crate::proofs::products::AlignLaws::aligns))]
fn aligned(s: bool, x: u64, i: u32, t: bool, y: u64, j: u32) -> f32
    requires { Terms x i y j }
    ensures { result ≡ Ieee.sum binary32 s (x * 2 ^ i) t (y * 2 ^ j) (2 ^ 426) }
{
    let e = i.max(j);
    // in 63 bits each (AlignLaws.aligned_fit), and the rounded sum is the same
    // (AlignLaws.aligned_sum)
    sum(
        s,
        shift_right_sticky(x, e - i),
        t,
        shift_right_sticky(y, e - j),
        e,
    )
}

// ±x plus ±y, times 2 ^ (e - BIAS), rounded once.
fn sum(s: bool, x: u64, t: bool, y: u64, e: u32) -> f32
    requires { (0 < x) × (x < 2 ^ 63) × (y < 2 ^ 63) }
    ensures { result ≡ Ieee.sum binary32 s (x * 2 ^ e) t (y * 2 ^ e) (2 ^ 426) }
{
    let v = size_of(s != t, x, y);
    if v == 0 {
        return 0.0; // SumSigns.sum_level
    }
    let negative = if x < y { t } else { s };
    round_pack(negative, v, e) // SumSigns.sum_sized
}

// The size of x plus y, or of their difference.
fn size_of(unlike: bool, x: u64, y: u64) -> u64
    requires { (x < 2 ^ 63) × (y < 2 ^ 63) }
    ensures { result ≡ cond unlike (distance x y) (x + y) }
{
    let apart = x.abs_diff(y); // first, so that the `if` can be a conditional move
    if unlike { apart } else { x + y }
}
