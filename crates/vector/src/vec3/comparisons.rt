// Comparisons and the tests for finite numbers and NaNs.
ghost use Rattle.std.specs.Prelude.{◌≡◌};
ghost use Rattle.vector.specs.Comparisons as Comparisons;

use crate::bvec3::BVec3;
use crate::vec3::Vec3;
use scalar::sign::{is_finite, is_nan};

impl Vec3 {
    // self == rhs, for each element
    #[tactic(auto, unfolding(crate::specs::Comparisons::cmpeq))]
    pub fn cmpeq(self, rhs: Self) -> BVec3
        ensures { result ≡ Comparisons.cmpeq self rhs }
    {
        BVec3::new(self.x == rhs.x, self.y == rhs.y, self.z == rhs.z)
    }

    // self >= rhs, for each element
    #[tactic(auto, unfolding(crate::specs::Comparisons::cmpge))]
    pub fn cmpge(self, rhs: Self) -> BVec3
        ensures { result ≡ Comparisons.cmpge self rhs }
    {
        BVec3::new(self.x >= rhs.x, self.y >= rhs.y, self.z >= rhs.z)
    }

    // self <= rhs, for each element
    #[tactic(auto, unfolding(crate::specs::Comparisons::cmple))]
    pub fn cmple(self, rhs: Self) -> BVec3
        ensures { result ≡ Comparisons.cmple self rhs }
    {
        BVec3::new(self.x <= rhs.x, self.y <= rhs.y, self.z <= rhs.z)
    }

    // self < rhs, for each element
    #[tactic(auto, unfolding(crate::specs::Comparisons::cmplt))]
    pub fn cmplt(self, rhs: Self) -> BVec3
        ensures { result ≡ Comparisons.cmplt self rhs }
    {
        BVec3::new(self.x < rhs.x, self.y < rhs.y, self.z < rhs.z)
    }

    // Whether all elements are finite.
    #[tactic(auto, unfolding(crate::specs::Comparisons::is_finite))]
    pub fn is_finite(self) -> bool
        ensures { result ≡ Comparisons.is_finite self }
    {
        is_finite(self.x) && is_finite(self.y) && is_finite(self.z)
    }

    // Which elements are finite.
    #[tactic(auto, unfolding(crate::specs::Comparisons::is_finite_mask))]
    pub fn is_finite_mask(self) -> BVec3
        ensures { result ≡ Comparisons.is_finite_mask self }
    {
        BVec3::new(is_finite(self.x), is_finite(self.y), is_finite(self.z))
    }

    // Whether any element is a NaN.
    #[tactic(auto, unfolding(crate::specs::Comparisons::is_nan))]
    pub fn is_nan(self) -> bool
        ensures { result ≡ Comparisons.is_nan self }
    {
        is_nan(self.x) || is_nan(self.y) || is_nan(self.z)
    }

    // Which elements are NaNs.
    #[tactic(auto, unfolding(crate::specs::Comparisons::is_nan_mask))]
    pub fn is_nan_mask(self) -> BVec3
        ensures { result ≡ Comparisons.is_nan_mask self }
    {
        BVec3::new(is_nan(self.x), is_nan(self.y), is_nan(self.z))
    }
}
