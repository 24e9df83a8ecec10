// Lengths held between bounds.
ghost use Rattle.std.specs.Prelude.{◌≡◌};
ghost use Rattle.vector.specs.LengthClamps as LengthClamps;

use crate::vec3::Vec3;
use scalar::root::sqrt;

// A vector of the squared length length_sq with its length brought to bound.
fn at_length(a: Vec3, length_sq: f32, bound: f32) -> Vec3
    ensures { result ≡ LengthClamps.at_length bound a length_sq }
{
    bound * (a / sqrt(length_sq))
}

impl Vec3 {
    // A vector with a length no less than min and no more than max.
    #[tactic(auto, unfolding(crate::specs::LengthClamps::clamp_length))]
    pub fn clamp_length(self, min: f32, max: f32) -> Self
        ensures { result ≡ LengthClamps.clamp_length self min max }
    {
        let length_sq = self.length_squared();
        if length_sq < min * min {
            at_length(self, length_sq, min)
        } else if length_sq > max * max {
            at_length(self, length_sq, max)
        } else {
            self
        }
    }

    // A vector with a length no more than max.
    #[tactic(auto, unfolding(crate::specs::LengthClamps::clamp_length_max))]
    pub fn clamp_length_max(self, max: f32) -> Self
        ensures { result ≡ LengthClamps.clamp_length_max self max }
    {
        let length_sq = self.length_squared();
        if length_sq > max * max {
            at_length(self, length_sq, max)
        } else {
            self
        }
    }

    // A vector with a length no less than min.
    #[tactic(auto, unfolding(crate::specs::LengthClamps::clamp_length_min))]
    pub fn clamp_length_min(self, min: f32) -> Self
        ensures { result ≡ LengthClamps.clamp_length_min self min }
    {
        let length_sq = self.length_squared();
        if length_sq < min * min {
            at_length(self, length_sq, min)
        } else {
            self
        }
    }
}
