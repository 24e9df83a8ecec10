// Between two vectors: interpolation, steps towards a point, closeness; and the fused product.
ghost use Rattle.std.specs.Prelude.{◌≡◌};
ghost use Rattle.vector.specs.Interpolation as Interpolation;

use crate::vec3::Vec3;
use scalar::fused;
use scalar::sign::abs;

impl Vec3 {
    // From self, s = 0.0, to rhs, s = 1.0, along a line.
    #[tactic(auto, unfolding(crate::specs::Interpolation::lerp))]
    pub fn lerp(self, rhs: Self, s: f32) -> Self
        ensures { result ≡ Interpolation.lerp self rhs s }
    {
        self * (1.0 - s) + rhs * s
    }

    // From self by d towards rhs; rhs itself where it is no further off than d or 1e-4.
    #[tactic(auto, unfolding(crate::specs::Interpolation::move_towards))]
    pub fn move_towards(self, rhs: Self, d: f32) -> Self
        ensures { result ≡ Interpolation.move_towards self rhs d }
    {
        let a = rhs - self;
        let len = a.length();
        if len <= d || len <= 1e-4 {
            return rhs;
        }
        self + a / len * d
    }

    // Half of the sum.
    #[tactic(auto, unfolding(crate::specs::Interpolation::midpoint))]
    pub fn midpoint(self, rhs: Self) -> Self
        ensures { result ≡ Interpolation.midpoint self rhs }
    {
        (self + rhs) * 0.5
    }

    // Whether no component differs by more than max_abs_diff.
    #[tactic(auto, unfolding(crate::specs::Interpolation::abs_diff_eq))]
    pub fn abs_diff_eq(self, rhs: Self, max_abs_diff: f32) -> bool
        ensures { result ≡ Interpolation.abs_diff_eq self rhs max_abs_diff }
    {
        let d = self - rhs;
        let x = abs(d.x) <= max_abs_diff;
        let y = abs(d.y) <= max_abs_diff;
        let z = abs(d.z) <= max_abs_diff;
        x & y & z
    }

    // self * a + b, rounded once in each component.
    #[tactic(auto, unfolding(crate::specs::Interpolation::mul_add))]
    pub fn mul_add(self, a: Self, b: Self) -> Self
        ensures { result ≡ Interpolation.mul_add self a b }
    {
        Self {
            x: fused::mul_add(self.x, a.x, b.x),
            y: fused::mul_add(self.y, a.y, b.y),
            z: fused::mul_add(self.z, a.z, b.z),
        }
    }
}
