// Signs of the elements. As a float a NaN's sign counts as clear.
// On bit patterns each NaN has its sign.
ghost use Rattle.std.specs.Prelude.{◌≡◌};
ghost use Rattle.vector.specs.Signs as Signs;

use crate::bvec3::BVec3;
use crate::vec3::Vec3;
use scalar::bits::from_bits;
use scalar::sign::{abs, copysign, copysign_bits, is_sign_negative, is_sign_negative_bits, signum};

impl Vec3 {
    // The absolute value of each element.
    #[tactic(auto, unfolding(crate::specs::Signs::abs))]
    pub fn abs(self) -> Self
        ensures { result ≡ Signs.abs self }
    {
        self.map(abs)
    }

    // 1.0 or -1.0 by the sign bit of each element; a NaN stays.
    #[tactic(auto, unfolding(crate::specs::Signs::signum))]
    pub fn signum(self) -> Self
        ensures { result ≡ Signs.signum self }
    {
        self.map(signum)
    }

    // The elements of self with the signs of rhs.
    #[tactic(auto, unfolding(crate::specs::Signs::copysign))]
    pub fn copysign(self, rhs: Self) -> Self
        ensures { result ≡ Signs.copysign self rhs }
    {
        self.zip_with(rhs, copysign)
    }

    // A number whose lowest 3 bits are the sign bits, x's the lowest.
    #[tactic(auto, unfolding(crate::specs::Signs::is_negative_bitmask))]
    pub fn is_negative_bitmask(self) -> u32
        ensures { result ≡ Signs.is_negative_bitmask self }
    {
        BVec3::new(
            is_sign_negative(self.x),
            is_sign_negative(self.y),
            is_sign_negative(self.z),
        )
        .bitmask()
    }

    // The same of three bit patterns, NaNs included.
    // Patterns stay numbers x, y, z: the theorem MasksAgree speaks of them so.
    #[tactic(auto, unfolding(crate::specs::Signs::is_negative_bitmask_bits))]
    pub fn is_negative_bitmask_bits(x: u32, y: u32, z: u32) -> u32
        ensures { result ≡ Signs.is_negative_bitmask_bits x y z }
    {
        BVec3::new(
            is_sign_negative_bits(x),
            is_sign_negative_bits(y),
            is_sign_negative_bits(z),
        )
        .bitmask()
    }

    // The elements x, y, z with the signs of a, b, c, all of them bit patterns, NaNs included.
    // Patterns stay numbers: the theorem CopiesAgree speaks of x, y, z and a, b, c so.
    #[tactic(auto, unfolding(crate::specs::Signs::copysign_bits))]
    pub fn copysign_bits(x: u32, y: u32, z: u32, a: u32, b: u32, c: u32) -> Self
        ensures { result ≡ Signs.copysign_bits x y z a b c }
    {
        Self {
            x: from_bits(copysign_bits(x, a)),
            y: from_bits(copysign_bits(y, b)),
            z: from_bits(copysign_bits(z, c)),
        }
    }
}
