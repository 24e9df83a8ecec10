// The operators of src/f32/vec3.rs.
ghost use Rattle.std.specs.Prelude.{◌≡◌};
ghost use Rattle.vector.specs.Operators as Operators;

use crate::vec3::Vec3;
use std::ops::{Add, Div, Mul, Neg, Sub};

impl Add for Vec3 {
    type Output = Self;

    ghost add_gives = { λ a b r. r ≡ Operators.add a b };

    #[tactic(auto, unfolding(crate::specs::Operators::add))]
    fn add(self, rhs: Self) -> Self {
        self.zip_with(rhs, |a, b| a + b)
    }
}

impl Add<f32> for Vec3 {
    type Output = Self;

    ghost add_gives = { λ a k r. r ≡ Operators.add_number a k };

    #[tactic(auto, unfolding(crate::specs::Operators::add_number))]
    fn add(self, rhs: f32) -> Self {
        self.map(|v| v + rhs)
    }
}

impl Sub for Vec3 {
    type Output = Self;

    ghost sub_gives = { λ a b r. r ≡ Operators.sub a b };

    #[tactic(auto, unfolding(crate::specs::Operators::sub))]
    fn sub(self, rhs: Self) -> Self {
        self.zip_with(rhs, |a, b| a - b)
    }
}

impl Sub<f32> for Vec3 {
    type Output = Self;

    ghost sub_gives = { λ a k r. r ≡ Operators.sub_number a k };

    #[tactic(auto, unfolding(crate::specs::Operators::sub_number))]
    fn sub(self, rhs: f32) -> Self {
        self.map(|v| v - rhs)
    }
}

impl Mul for Vec3 {
    type Output = Self;

    ghost mul_gives = { λ a b r. r ≡ Operators.mul a b };

    #[tactic(auto, unfolding(crate::specs::Operators::mul))]
    fn mul(self, rhs: Self) -> Self {
        self.zip_with(rhs, |a, b| a * b)
    }
}

impl Mul<f32> for Vec3 {
    type Output = Self;

    ghost mul_gives = { λ a k r. r ≡ Operators.mul_number a k };

    #[tactic(auto, unfolding(crate::specs::Operators::mul_number))]
    fn mul(self, rhs: f32) -> Self {
        self.map(|v| v * rhs)
    }
}

impl Mul<Vec3> for f32 {
    type Output = Vec3;

    ghost mul_gives = { λ k a r. r ≡ Operators.number_mul k a };

    #[tactic(auto, unfolding(crate::specs::Operators::number_mul))]
    fn mul(self, rhs: Vec3) -> Vec3 {
        rhs.map(|v| self * v)
    }
}

impl Div for Vec3 {
    type Output = Self;

    ghost div_gives = { λ a b r. r ≡ Operators.div a b };

    #[tactic(auto, unfolding(crate::specs::Operators::div))]
    fn div(self, rhs: Self) -> Self {
        self.zip_with(rhs, |a, b| a / b)
    }
}

impl Div<f32> for Vec3 {
    type Output = Self;

    ghost div_gives = { λ a k r. r ≡ Operators.div_number a k };

    #[tactic(auto, unfolding(crate::specs::Operators::div_number))]
    fn div(self, rhs: f32) -> Self {
        self.map(|v| v / rhs)
    }
}

impl Neg for Vec3 {
    type Output = Self;

    ghost neg_gives = { λ a r. r ≡ Operators.neg a };

    #[tactic(auto, unfolding(crate::specs::Operators::neg))]
    fn neg(self) -> Self {
        self.map(|v| -v)
    }
}
