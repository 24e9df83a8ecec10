// Division with a remainder, as src/f32/math.rs has it.
ghost use Rattle.std.specs.Prelude.{◌≡◌};
ghost use Rattle.scalar.specs.Euclid as Euclid;

use crate::bits::{Parts, decode};
use crate::integral::trunc;
use crate::remainder::{pack_exact, rest};
use crate::sign::abs;

// The operator `%`: m * 2 ^ (k - d) modulo n, times 2 ^ d. Where k < d, b has 24 bits and is larger
// than a (RestLaws.rem_smaller, RestLaws.rem_rest).
#[tactic(auto, using(crate::proofs::RestLaws::remainders))]
pub fn rem(a: f32, b: f32) -> f32
    ensures { result ≡ Euclid.remainder a b }
{
    let Parts::Fin(s, m, k) = decode(a) else {
        return f32::NAN;
    };
    match decode(b) {
        Parts::Nan => b,
        Parts::Inf(_) => a,
        Parts::Fin(_, n, d) => {
            if n == 0 {
                return f32::NAN;
            }
            if k < d {
                return a;
            }
            pack_exact(s, rest(m, k - d, n), d)
        }
    }
}

#[tactic(auto, using(crate::proofs::ComposedLaws::div_is))]
pub fn div_euclid(a: f32, b: f32) -> f32
    ensures { result ≡ Euclid.div_euclid a b }
{
    let q = trunc(a / b);
    if rem(a, b) < 0.0 {
        return if b > 0.0 { q - 1.0 } else { q + 1.0 };
    }
    q
}

#[tactic(auto, using(crate::proofs::ComposedLaws::rem_is))]
pub fn rem_euclid(a: f32, b: f32) -> f32
    ensures { result ≡ Euclid.rem_euclid a b }
{
    let r = rem(a, b);
    if r < 0.0 { r + abs(b) } else { r }
}
