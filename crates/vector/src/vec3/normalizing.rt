// Unit vectors: the five normalising functions, and the test for a unit vector.
ghost use Rattle.std.specs.Prelude.{◌≡◌};
ghost use Rattle.vector.specs.Normalizing as Normalizing;
ghost use Rattle.vector.specs.NormalizingMeaning as Meaning;

use crate::vec3::Vec3;
use scalar::sign::{abs, is_finite};

// A unit vector and the length that the vector had.
#[derive(Clone, Copy)]
pub struct NormalizedAndLength {
    pub normalized: Vec3,
    pub length: f32,
}

// Whether the reciprocal of a length leads to a unit vector. There is no threshold.
#[tactic(auto, unfolding(crate::specs::Normalizing::usable))]
fn usable(rcp: f32) -> bool
    ensures { result ≡ Normalizing.usable rcp }
{
    is_finite(rcp) && rcp > 0.0
}

impl Vec3 {
    // self at length 1.0, by a division.
    #[tactic(auto, unfolding(crate::specs::Normalizing::normalize))]
    pub fn normalize(self) -> Self
        ensures { result ≡ Normalizing.normalize self }
    {
        self / Self::splat(self.length())
    }

    // self at length 1.0 if possible.
    #[tactic(auto, using(crate::proofs::meanings::NormalizingLaws::shown), unfolding(crate::specs::Normalizing::try_normalize))]
    pub fn try_normalize(self) -> Option<Self>
        ensures direction { result ≡ Normalizing.try_normalize self }
        ensures numbered { Normalizing.answer_of result ≡ Meaning.unit_or_none self }
    {
        let rcp = self.length_recip();
        if usable(rcp) { Some(self * rcp) } else { None }
    }

    // self at length 1.0 if possible, else a fallback value.
    #[tactic(auto, unfolding(crate::specs::Normalizing::try_normalize, crate::specs::Normalizing::normalize_or))]
    pub fn normalize_or(self, fallback: Self) -> Self
        ensures { result ≡ Normalizing.normalize_or self fallback }
    {
        self.try_normalize().unwrap_or(fallback)
    }

    // self at length 1.0 if possible, else zero.
    #[tactic(auto, unfolding(crate::specs::Normalizing::normalize_or_zero))]
    pub fn normalize_or_zero(self) -> Self
        ensures { result ≡ Normalizing.normalize_or_zero self }
    {
        self.normalize_or(Self::ZERO)
    }

    // self at length 1.0 and the length of self, or X and 0.0.
    #[tactic(auto, unfolding(crate::specs::Normalizing::normalize_and_length))]
    pub fn normalize_and_length(self) -> NormalizedAndLength
        ensures { result ≡ Normalizing.normalize_and_length self }
    {
        let length = self.length();
        let rcp = 1.0 / length;
        if usable(rcp) {
            NormalizedAndLength {
                normalized: self * rcp,
                length,
            }
        } else {
            NormalizedAndLength {
                normalized: Self::X,
                length: 0.0,
            }
        }
    }

    // Whether the length is 1.0: 2e-4 on the square.
    #[tactic(auto, unfolding(crate::specs::Normalizing::is_normalized))]
    pub fn is_normalized(self) -> bool
        ensures { result ≡ Normalizing.is_normalized self }
    {
        abs(self.length_squared() - 1.0) <= 2e-4
    }
}
