// The functions of masks, each by the number that a call line gives it:
// the `match` is the table of docs/FUNCTIONS.md.
ghost use Rattle.vector.specs.Masks as Masks;
ghost use Rattle.probe.specs.Shows.{Shows};

use crate::answer::{Answer, Refusal};
use crate::arguments::{of_one, of_three, of_two};
use crate::shown::Shown;
use vector::bvec3::BVec3;

pub(crate) fn answer(number: u32, words: &[u32]) -> Answer {
    match number {
        30 => of_three(words, BVec3::new),
        31 => of_one(words, BVec3::splat),
        32 => of_two(words, test),
        33 => of_one(words, BVec3::bitmask),
        34 => of_two(words, |a: BVec3, b: BVec3| a & b),
        35 => of_two(words, |a: BVec3, b: BVec3| a | b),
        36 => of_one(words, |a: BVec3| !a),
        _ => Err(Refusal::Unknown),
    }
}

// A bit, or the refusal.
fn test(m: BVec3, index: u32) -> Answer
    ensures { Shows Masks.bit (Masks.test m index) result }
{
    m.test(index).ok_or(Refusal::Index)?.answer()
}
