// The functions of numbers, each by the number that a call line gives it:
// the `match` is the table of docs/FUNCTIONS.md.
use crate::answer::{Answer, Refusal};
use crate::arguments::{of_one, of_three, of_two};
use crate::signs::{copysign, is_sign_negative};
use scalar::acos::acos_approx;
use scalar::euclid::{div_euclid, rem, rem_euclid};
use scalar::fused::mul_add;
use scalar::integral::{floor, round, trunc};
use scalar::root::{sqrt, sqrt_and_exactness};
use scalar::sign::{abs, is_finite, is_nan, signum};

pub(crate) fn answer(number: u32, words: &[u32]) -> Answer {
    match number {
        1 => of_one(words, sqrt),
        2 => of_three(words, mul_add),
        3 => of_one(words, trunc),
        4 => of_one(words, floor),
        5 => of_one(words, round),
        6 => of_one(words, abs),
        7 => of_two(words, copysign),
        8 => of_one(words, signum),
        9 => of_two(words, rem),
        10 => of_two(words, div_euclid),
        11 => of_two(words, rem_euclid),
        12 => of_one(words, acos_approx),
        13 => of_one(words, is_finite),
        14 => of_one(words, is_nan),
        15 => of_one(words, is_sign_negative),
        16 => of_one(words, sqrt_and_exactness),
        _ => Err(Refusal::Unknown),
    }
}
