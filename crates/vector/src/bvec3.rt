// A mask of three bools (src/bool/bvec3.rs).
ghost use Rattle.std.specs.Prelude.{◌≡◌};
ghost use Rattle.vector.specs.Masks as Masks;

use std::ops::{BitAnd, BitOr, Not};

#[derive(Clone, Copy)]
pub struct BVec3 {
    pub x: bool,
    pub y: bool,
    pub z: bool,
}

impl BVec3 {
    pub fn new(x: bool, y: bool, z: bool) -> Self
        ensures { result ≡ Masks.mask x y z }
    {
        Self { x, y, z }
    }

    // All elements v.
    pub fn splat(v: bool) -> Self
        ensures { result ≡ Masks.mask v v v }
    {
        Self::new(v, v, v)
    }

    // A number whose lowest 3 bits are the elements, x the lowest.
    #[tactic(auto, unfolding(crate::specs::Masks::bitmask))]
    pub fn bitmask(self) -> u32
        ensures { result ≡ Masks.bitmask self }
    {
        (self.x as u32) | ((self.y as u32) << 1) | ((self.z as u32) << 2)
    }

    // The element at an index 0 to 2, or none, which is refusal 10.
    #[tactic(auto, unfolding(crate::specs::Indexed::indexed))]
    pub fn test(self, index: u32) -> Option<bool>
        ensures { Masks.answer_of result ≡ Masks.test self index }
    {
        [self.x, self.y, self.z].get(index as usize).copied()
    }
}

impl BitAnd for BVec3 {
    type Output = Self;

    ghost bitand_gives = { λ a b r. r ≡ Masks.and a b };

    #[tactic(auto, unfolding(crate::specs::Masks::and))]
    fn bitand(self, rhs: Self) -> Self {
        Self {
            x: self.x & rhs.x,
            y: self.y & rhs.y,
            z: self.z & rhs.z,
        }
    }
}

impl BitOr for BVec3 {
    type Output = Self;

    ghost bitor_gives = { λ a b r. r ≡ Masks.or a b };

    #[tactic(auto, unfolding(crate::specs::Masks::or))]
    fn bitor(self, rhs: Self) -> Self {
        Self {
            x: self.x | rhs.x,
            y: self.y | rhs.y,
            z: self.z | rhs.z,
        }
    }
}

impl Not for BVec3 {
    type Output = Self;

    ghost not_gives = { λ a r. r ≡ Masks.not a };

    #[tactic(auto, unfolding(crate::specs::Masks::not))]
    fn not(self) -> Self {
        Self {
            x: !self.x,
            y: !self.y,
            z: !self.z,
        }
    }
}
