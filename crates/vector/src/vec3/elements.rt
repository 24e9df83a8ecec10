// Elements: chosen by a mask, the least and the greatest.
ghost use Rattle.std.specs.Prelude.{◌≡◌, Bool, Float};
ghost use Rattle.vector.specs.Elements as Elements;

use crate::bvec3::BVec3;
use crate::vec3::Vec3;

// a < b ? a : b
#[tactic(auto, unfolding(crate::specs::Elements::lesser))]
fn min(a: f32, b: f32) -> f32
    ensures { result ≡ Elements.lesser a b }
{
    if a < b { a } else { b }
}

// a > b ? a : b
#[tactic(auto, unfolding(crate::specs::Elements::greater))]
fn max(a: f32, b: f32) -> f32
    ensures { result ≡ Elements.greater a b }
{
    if a > b { a } else { b }
}

impl Vec3 {
    // A true element of the mask takes the element of if_true, a false one that of if_false.
    #[tactic(auto, unfolding(crate::specs::Elements::select))]
    pub fn select(mask: BVec3, if_true: Self, if_false: Self) -> Self
        ensures { result ≡ Elements.select mask if_true if_false }
    {
        Self {
            x: if mask.x { if_true.x } else { if_false.x },
            y: if mask.y { if_true.y } else { if_false.y },
            z: if mask.z { if_true.z } else { if_false.z },
        }
    }

    // The lesser of the elements of self and rhs.
    #[tactic(auto, unfolding(crate::specs::Elements::min))]
    pub fn min(self, rhs: Self) -> Self
        ensures { result ≡ Elements.min self rhs }
    {
        self.zip_with(rhs, min)
    }

    // The greater of the elements of self and rhs.
    #[tactic(auto, unfolding(crate::specs::Elements::max))]
    pub fn max(self, rhs: Self) -> Self
        ensures { result ≡ Elements.max self rhs }
    {
        self.zip_with(rhs, max)
    }

    // Each element brought between those of min and max.
    #[tactic(auto, unfolding(crate::specs::Elements::clamp))]
    pub fn clamp(self, min: Self, max: Self) -> Self
        ensures { result ≡ Elements.clamp self min max }
    {
        self.max(min).min(max)
    }

    // The least element.
    #[tactic(auto, unfolding(crate::specs::Elements::min_element))]
    pub fn min_element(self) -> f32
        ensures { result ≡ Elements.min_element self }
    {
        min(self.x, min(self.y, self.z))
    }

    // The greatest element.
    #[tactic(auto, unfolding(crate::specs::Elements::max_element))]
    pub fn max_element(self) -> f32
        ensures { result ≡ Elements.max_element self }
    {
        max(self.x, max(self.y, self.z))
    }

    // The index of the first least element.
    #[tactic(auto, unfolding(crate::specs::Elements::min_position))]
    pub fn min_position(self) -> u32
        ensures { result ≡ Elements.min_position self }
    {
        self.position(|a, b| a < b)
    }

    // The index of the first greatest element.
    #[tactic(auto, unfolding(crate::specs::Elements::max_position))]
    pub fn max_position(self) -> u32
        ensures { result ≡ Elements.max_position self }
    {
        self.position(|a, b| a > b)
    }

    // The index of the first element that no other comes before.
    #[tactic(auto, unfolding(crate::specs::Elements::position))]
    fn position<F: Fn(f32, f32) -> bool>(self, before: F) -> u32
        requires { F.IsAlwaysCallable before }
        ensures { (p : Float → Float → Bool) → ((a b : Float) (r : Bool) → F.post before a b r → r ≡ p a b)
            → result ≡ Elements.position p self }
    {
        let mut first = self.x;
        let mut index = 0;
        if before(self.y, first) {
            first = self.y;
            index = 1;
        }
        if before(self.z, first) {
            index = 2;
        }
        index
    }
}
