// The functions of vectors, each by the number that a call line gives it:
// the `match` is the table of docs/FUNCTIONS.md.
ghost use Rattle.std.specs.Float.{binary32};
ghost use Rattle.std.specs.Float.Ieee.{to_bits};
ghost use Rattle.vector.specs.Indexed as Indexed;
ghost use Rattle.probe.specs.Shows.{Shows};

use crate::answer::{Answer, Refusal};
use crate::arguments::{constant, of_one, of_three, of_two};
use crate::shown::Shown;
use crate::signs::{copysign_all, is_negative_bitmask};
use vector::vec3::Vec3;

pub(crate) fn answer(number: u32, words: &[u32]) -> Answer {
    match number {
        40 => of_three(words, Vec3::new),
        41 => of_one(words, Vec3::splat),
        42 => of_three(words, Vec3::select),
        43 => of_two(words, Vec3::dot),
        44 => of_two(words, Vec3::cross),
        45 => of_two(words, Vec3::min),
        46 => of_two(words, Vec3::max),
        47 => of_three(words, Vec3::clamp),
        48 => of_one(words, Vec3::min_element),
        49 => of_one(words, Vec3::max_element),
        50 => of_one(words, Vec3::min_position),
        51 => of_one(words, Vec3::max_position),
        52 => of_two(words, Vec3::cmpeq),
        53 => of_two(words, Vec3::cmpge),
        54 => of_two(words, Vec3::cmple),
        55 => of_two(words, Vec3::cmplt),
        56 => of_one(words, Vec3::abs),
        57 => of_one(words, Vec3::signum),
        58 => of_two(words, copysign_all),
        59 => of_one(words, is_negative_bitmask),
        60 => of_one(words, Vec3::is_finite),
        61 => of_one(words, Vec3::is_finite_mask),
        62 => of_one(words, Vec3::is_nan),
        63 => of_one(words, Vec3::is_nan_mask),
        64 => of_one(words, Vec3::length),
        65 => of_one(words, Vec3::length_squared),
        66 => of_one(words, Vec3::length_recip),
        67 => of_two(words, Vec3::distance),
        68 => of_two(words, Vec3::distance_squared),
        69 => of_two(words, Vec3::div_euclid),
        70 => of_two(words, Vec3::rem_euclid),
        71 => of_one(words, Vec3::normalize),
        72 => of_one(words, Vec3::try_normalize),
        73 => of_two(words, Vec3::normalize_or),
        74 => of_one(words, Vec3::normalize_or_zero),
        75 => of_one(words, Vec3::normalize_and_length),
        76 => of_one(words, Vec3::is_normalized),
        77 => of_two(words, Vec3::project_onto),
        78 => of_two(words, Vec3::reject_from),
        79 => of_two(words, Vec3::project_onto_normalized),
        80 => of_two(words, Vec3::reject_from_normalized),
        81 => of_one(words, Vec3::round),
        82 => of_one(words, Vec3::floor),
        83 => of_one(words, Vec3::trunc),
        84 => of_two(words, Vec3::step),
        85 => of_one(words, Vec3::saturate),
        86 => of_one(words, Vec3::fract),
        87 => of_one(words, Vec3::fract_gl),
        88 => of_one(words, Vec3::recip),
        89 => of_three(words, Vec3::lerp),
        90 => of_three(words, Vec3::move_towards),
        91 => of_two(words, Vec3::midpoint),
        92 => of_three(words, Vec3::abs_diff_eq),
        93 => of_three(words, Vec3::clamp_length),
        94 => of_two(words, Vec3::clamp_length_max),
        95 => of_two(words, Vec3::clamp_length_min),
        96 => of_three(words, Vec3::mul_add),
        97 => of_two(words, Vec3::reflect),
        98 => of_three(words, Vec3::refract),
        99 => of_two(words, Vec3::angle_between),
        100 => of_one(words, Vec3::any_orthogonal_vector),
        101 => of_one(words, Vec3::any_orthonormal_vector),
        102 => of_one(words, Vec3::any_orthonormal_pair),
        103 => of_two(words, component),
        104 => of_two(words, |a: Vec3, b: Vec3| a + b),
        105 => of_two(words, |a: Vec3, b: Vec3| a - b),
        106 => of_two(words, |a: Vec3, b: Vec3| a * b),
        107 => of_two(words, |a: Vec3, b: Vec3| a / b),
        108 => of_two(words, |a: Vec3, s: f32| a + s),
        109 => of_two(words, |a: Vec3, s: f32| a - s),
        110 => of_two(words, |a: Vec3, s: f32| a * s),
        111 => of_two(words, |a: Vec3, s: f32| a / s),
        112 => of_one(words, |a: Vec3| -a),
        113 => of_two(words, |s: f32, a: Vec3| s * a),
        114 => of_one(words, Vec3::from_homogeneous),
        115 => of_one(words, Vec3::to_homogeneous),
        116 => of_two(words, Vec3::extend),
        117 => constant(words, Vec3::ZERO),
        118 => constant(words, Vec3::ONE),
        119 => constant(words, Vec3::X),
        120 => of_one(words, Vec3::length_and_exactness),
        121 => of_two(words, Vec3::distance_and_exactness),
        122 => of_one(words, Vec3::scaled),
        123 => of_one(words, Vec3::direction_unchecked),
        _ => Err(Refusal::Unknown),
    }
}

// A number, or the refusal.
#[tactic(auto, using(crate::proofs::ZeroBits::bits_of_zero))]
fn component(a: Vec3, index: u32) -> Answer
    ensures { Shows (to_bits binary32) (Indexed.component a index) result }
{
    a.component(index).ok_or(Refusal::Index)?.answer()
}
