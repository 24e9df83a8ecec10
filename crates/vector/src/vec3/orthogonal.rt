// Vectors at right angles to a given one.
ghost use Rattle.std.specs.Prelude.{◌≡◌};
ghost use Rattle.vector.specs.Orthogonal as Orthogonal;

use crate::vec3::Vec3;
use scalar::sign::{abs, signum};

// What any_orthonormal_pair answers, a tuple in the Rust.
#[derive(Clone, Copy)]
pub struct Pair {
    pub first: Vec3,
    pub second: Vec3,
}

impl Vec3 {
    // Some vector that is orthogonal to self.
    #[tactic(auto, unfolding(crate::specs::Orthogonal::any_orthogonal_vector))]
    pub fn any_orthogonal_vector(self) -> Self
        ensures { result ≡ Orthogonal.any_orthogonal_vector self }
    {
        if abs(self.x) > abs(self.y) {
            Self {
                x: -self.z,
                y: 0.0,
                z: self.x,
            }
        } else {
            Self {
                x: 0.0,
                y: self.z,
                z: -self.y,
            }
        }
    }

    // Some unit vector that is orthogonal to the unit vector self.
    #[tactic(auto, unfolding(crate::specs::Orthogonal::any_orthonormal_vector))]
    pub fn any_orthonormal_vector(self) -> Self
        ensures { result ≡ Orthogonal.any_orthonormal_vector self }
    {
        let sign = signum(self.z);
        let a = -1.0 / (sign + self.z);
        let b = self.x * self.y * a;
        Self {
            x: b,
            y: sign + self.y * self.y * a,
            z: -self.y,
        }
    }

    // Two vectors that form a right-handed orthonormal basis with the unit vector self.
    #[tactic(auto, unfolding(crate::specs::Orthogonal::any_orthonormal_pair))]
    pub fn any_orthonormal_pair(self) -> Pair
        ensures { result ≡ Orthogonal.any_orthonormal_pair self }
    {
        let sign = signum(self.z);
        let a = -1.0 / (sign + self.z);
        let b = self.x * self.y * a;
        Pair {
            first: Self {
                x: 1.0 + sign * self.x * self.x * a,
                y: sign * b,
                z: -sign * self.x,
            },
            second: Self {
                x: b,
                y: sign + self.y * self.y * a,
                z: -self.y,
            },
        }
    }
}
