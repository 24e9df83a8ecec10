// Products, lengths and distances.
ghost use Rattle.std.specs.Prelude.{◌≡◌};
ghost use Rattle.vector.specs.Products as Products;

use crate::vec3::Vec3;
use scalar::root::{MarkedRoot, sqrt, sqrt_and_exactness};

impl Vec3 {
    // The dot product.
    #[tactic(auto, unfolding(crate::specs::Products::dot))]
    pub fn dot(self, rhs: Self) -> f32
        ensures { result ≡ Products.dot self rhs }
    {
        (self.x * rhs.x) + (self.y * rhs.y) + (self.z * rhs.z)
    }

    // The cross product.
    #[tactic(auto, unfolding(crate::specs::Products::cross))]
    pub fn cross(self, rhs: Self) -> Self
        ensures { result ≡ Products.cross self rhs }
    {
        Self {
            x: self.y * rhs.z - rhs.y * self.z,
            y: self.z * rhs.x - rhs.z * self.x,
            z: self.x * rhs.y - rhs.x * self.y,
        }
    }

    // The length, by a root.
    #[tactic(auto, unfolding(crate::specs::Products::length))]
    pub fn length(self) -> f32
        ensures { result ≡ Products.length self }
    {
        sqrt(self.dot(self))
    }

    // The length, and whether its root is exact.
    #[tactic(auto, unfolding(crate::specs::Products::length_and_exactness))]
    pub fn length_and_exactness(self) -> MarkedRoot
        ensures { result ≡ Products.length_and_exactness self }
    {
        sqrt_and_exactness(self.dot(self))
    }

    // The squared length.
    #[tactic(auto, unfolding(crate::specs::Products::length_squared))]
    pub fn length_squared(self) -> f32
        ensures { result ≡ Products.length_squared self }
    {
        self.dot(self)
    }

    // 1.0 divided by the length.
    #[tactic(auto, unfolding(crate::specs::Products::length_recip))]
    pub fn length_recip(self) -> f32
        ensures { result ≡ Products.length_recip self }
    {
        1.0 / self.length()
    }

    // The distance between two points.
    #[tactic(auto, unfolding(crate::specs::Products::distance))]
    pub fn distance(self, rhs: Self) -> f32
        ensures { result ≡ Products.distance self rhs }
    {
        (self - rhs).length()
    }

    // The distance between two points, and whether its root is exact.
    #[tactic(auto, unfolding(crate::specs::Products::distance_and_exactness))]
    pub fn distance_and_exactness(self, rhs: Self) -> MarkedRoot
        ensures { result ≡ Products.distance_and_exactness self rhs }
    {
        (self - rhs).length_and_exactness()
    }

    // The squared distance between two points.
    #[tactic(auto, unfolding(crate::specs::Products::distance_squared))]
    pub fn distance_squared(self, rhs: Self) -> f32
        ensures { result ≡ Products.distance_squared self rhs }
    {
        (self - rhs).length_squared()
    }
}
