// The rounded root, by a whole root that is worked out digit by digit and one comparison of whole
// squares; and whether it is exact.
ghost use Rattle.std.specs.Prelude.{◌≡◌, ◌+◌, ◌*◌, ◌/◌, ◌^◌, ◌≤◌, ◌<◌};
ghost use Rattle.std.specs.Float.Ieee as Ieee;
ghost use Rattle.scalar.specs.Root as Root;
ghost use Rattle.scalar.specs.ExactRoot as ExactRoot;
ghost use Rattle.laws.specs.WholeRoot as Whole;
ghost use Rattle.laws.specs.WholeRoot.{WholeRoot};
ghost use Rattle.scalar.specs.RootParts.{Positive, Shift, NearRoot};

use crate::bits::{Parts, decode, pack};

// The rounded root. Most arguments are positive and normal, and are told by their bits.
#[tactic(auto, using(crate::proofs::roots::RootPartsLaws::normal_roots))]
pub fn sqrt(x: f32) -> f32
    ensures { result ≡ Root.root x }
{
    if x.is_nan() {
        return x;
    }
    let b = f32::to_bits(x);
    if b >= 0x80_0000 && b < 0x7f80_0000 {
        // x is (b % 2 ^ 23 + 2 ^ 23) * 2 ^ k smallest values (BitsLaws.normal)
        let k = b / 0x80_0000 - 1;
        return root_of(b % 0x80_0000 + 0x80_0000, k, 23 + k % 2); // RootPartsLaws.shift_normal
    }
    other_root(x)
}

// A root, and whether it is exact: whether its square is the argument, without rounding. Either
// mark has its root, and `root_and_exactness` is of the pair.
#[derive(Clone, Copy)]
pub struct MarkedRoot {
    pub root: f32,
    pub exact: bool,
}

// The rounded root, and whether it is exact.
#[tactic(auto, unfolding(crate::specs::ExactRoot::root_and_exactness))]
pub fn sqrt_and_exactness(x: f32) -> MarkedRoot
    ensures { result ≡ ExactRoot.root_and_exactness x }
{
    let root = sqrt(x);
    MarkedRoot {
        root,
        exact: is_exact(x, root),
    }
}

// Whether the rounded root of x is exact. Its significand m is the whole number nearest to the root
// of x's radicand n, and m * m is n exactly where the root's square is x.
fn is_exact(x: f32, root: f32) -> bool
    requires { root ≡ Root.root x }
    ensures { result ≡ ExactRoot.exact_root x }
{
    let Parts::Fin(s, q, k) = decode(x) else {
        return false; // infinity or NaN
    };
    if q == 0 {
        return true; // either zero
    }
    if s {
        return false; // below zero
    }
    // x is n * 4 ^ h / 2 ^ 298 for some h (RootPartsLaws.radicand_is)
    let n = (q as u64) << shift_of(q, k);
    let m = (f32::to_bits(root) % 0x80_0000 + 0x80_0000) as u64; // a root above zero is normal
    m * m == n // ExactRootLaws.significand_exact
}

// The rounded root of any float: of zeros, infinities, what is below zero, and subnormals.
#[tactic(auto, using(crate::proofs::roots::RootCases::root_cases))]
fn other_root(x: f32) -> f32
    ensures { result ≡ Root.root x }
{
    match decode(x) {
        Parts::Nan => x,
        Parts::Inf(s) => {
            if s {
                return f32::NAN;
            }
            x
        }
        Parts::Fin(s, q, k) => {
            if q == 0 {
                return x;
            }
            if s {
                return f32::NAN;
            }
            root_of(q, k, shift_of(q, k))
        }
    }
}

// The rounded root of q times 2 ^ k of the smallest values, q being shifted left by a bits.
#[tactic(auto, using(crate::proofs::roots::RootPartsLaws::root_all))]
fn root_of(q: u32, k: u32, a: u32) -> f32
    requires { Positive q k × Shift q k a }
    ensures { result ≡ Root.root_units (q * 2 ^ k) }
{
    // q * 2 ^ k * 2 ^ 149 is n * 4 ^ h, h being (k + 149 - a) / 2 (RootPartsLaws.radicand_is)
    let n = (q as u64) << a;
    let r = nearest_root(n);
    // the rounded root is r * 2 ^ h smallest values (RootPartsLaws.root_all)
    pack(false, r, (k + 149 - a) / 2)
}

// By how many bits q is shifted left, so that it has 47 or 48 bits and what is left of the exponent
// is even.
fn shift_of(q: u32, k: u32) -> u32
    requires { Positive q k }
    ensures { Shift q k result }
{
    let least = 15 + u32::leading_zeros(q); // 8 to 31 leading zeros (RootPartsLaws.zeros_in)
    least + (k + 149 - least) % 2 // RootPartsLaws.shift_is
}

// The whole number nearest to the root of n. The root is never halfway between two.
fn nearest_root(n: u64) -> u32
    requires { (2 ^ 46 ≤ n) × (n < 2 ^ 48) }
    ensures { NearRoot n result }
{
    let r = whole_root(n);
    if n - r * r > r {
        return (r + 1) as u32; // the root is above r + 1/2 (RootPartsLaws.near_up)
    }
    r as u32 // it is below r + 1/2 (RootPartsLaws.near_stays)
}

// The whole root of a radicand of 47 or 48 bits, a digit of base 4 at a time, the highest first:
// twelve rounds.
fn whole_root(n: u64) -> u64
    requires { n < 2 ^ 48 }
    ensures { WholeRoot n result }
{
    let mut s: u64 = 0;
    // s is the whole root of n >> (48 - 4 * digit) (DigitLaws.no_bits)
    for digit in 0..12u32 {
        // n >> (44 - 4 * digit) has four bits more (DigitLaws.four_bits)
        s = with_digit(n >> (44 - 4 * digit), s);
    }
    s // DigitLaws.all_bits
}

// The whole root of m, s being that of m / 16: s with a digit more. The digit's second bit is found
// for either value of its first, so that no square waits for another, and each `if` can be a
// conditional move.
fn with_digit(m: u64, s: u64) -> u64
    requires { (s < 2 ^ 22) × WholeRoot (m / 16) s }
    ensures { WholeRoot m result }
{
    let high = 4 * s + 2;
    let with_zero = grown(4 * s, m);
    let with_one = grown(high, m);
    if high * high <= m {
        with_one // DigitLaws.first_one
    } else {
        with_zero // DigitLaws.first_zero
    }
}

// r, or the next number if its square is at most m.
fn grown(r: u64, m: u64) -> u64
    requires { r < 2 ^ 25 }
    ensures { result ≡ Whole.grown r m }
{
    if (r + 1) * (r + 1) <= m { r + 1 } else { r }
}
