// Divisions with a remainder, roundings, parts and reciprocals of each component.
ghost use Rattle.std.specs.Prelude.{◌≡◌};
ghost use Rattle.vector.specs.Rounding as Rounding;

use crate::vec3::Vec3;
use scalar::{euclid, integral};

impl Vec3 {
    // The quotients of a division with a remainder.
    #[tactic(auto, unfolding(crate::specs::Rounding::div_euclid))]
    pub fn div_euclid(self, rhs: Self) -> Self
        ensures { result ≡ Rounding.div_euclid self rhs }
    {
        self.zip_with(rhs, euclid::div_euclid)
    }

    // The remainders of a division with a remainder.
    #[tactic(auto, unfolding(crate::specs::Rounding::rem_euclid))]
    pub fn rem_euclid(self, rhs: Self) -> Self
        ensures { result ≡ Rounding.rem_euclid self rhs }
    {
        self.zip_with(rhs, euclid::rem_euclid)
    }

    // The nearest whole numbers, ties to even.
    #[tactic(auto, unfolding(crate::specs::Rounding::round))]
    pub fn round(self) -> Self
        ensures { result ≡ Rounding.round self }
    {
        self.map(integral::round)
    }

    // The largest whole numbers at or below the components.
    #[tactic(auto, unfolding(crate::specs::Rounding::floor))]
    pub fn floor(self) -> Self
        ensures { result ≡ Rounding.floor self }
    {
        self.map(integral::floor)
    }

    // The components cut toward zero.
    #[tactic(auto, unfolding(crate::specs::Rounding::trunc))]
    pub fn trunc(self) -> Self
        ensures { result ≡ Rounding.trunc self }
    {
        self.map(integral::trunc)
    }

    // 0.0 where rhs is below self, else 1.0.
    #[tactic(auto, unfolding(crate::specs::Rounding::step))]
    pub fn step(self, rhs: Self) -> Self
        ensures { result ≡ Rounding.step self rhs }
    {
        Self::select(rhs.cmplt(self), Self::ZERO, Self::ONE)
    }

    // Each component clamped to 0.0 .. 1.0.
    #[tactic(auto, unfolding(crate::specs::Rounding::saturate))]
    pub fn saturate(self) -> Self
        ensures { result ≡ Rounding.saturate self }
    {
        self.clamp(Self::ZERO, Self::ONE)
    }

    // The fractional parts, with the signs of the components.
    #[tactic(auto, unfolding(crate::specs::Rounding::fract))]
    pub fn fract(self) -> Self
        ensures { result ≡ Rounding.fract self }
    {
        self - self.trunc()
    }

    // The fractional parts above the floors.
    #[tactic(auto, unfolding(crate::specs::Rounding::fract_gl))]
    pub fn fract_gl(self) -> Self
        ensures { result ≡ Rounding.fract_gl self }
    {
        self - self.floor()
    }

    // 1.0 divided by each component.
    #[tactic(auto, unfolding(crate::specs::Rounding::recip))]
    pub fn recip(self) -> Self
        ensures { result ≡ Rounding.recip self }
    {
        self.map(|v| 1.0 / v)
    }
}
