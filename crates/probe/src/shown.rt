// What a function gives, as an answer.
ghost use Rattle.std.specs.Prelude.{[], ◌∷◌};
ghost use Rattle.std.specs.Float.{binary32};
ghost use Rattle.std.specs.Float.Ieee.{to_bits};
ghost use Rattle.vector.specs.Masks as Masks;
ghost use Rattle.probe.specs.Shows.{Gives, one};

use crate::answer::Answer;
use crate::results::Results;
use scalar::bits::to_bits;
use scalar::root::MarkedRoot;
use vector::bvec3::BVec3;
use vector::vec3::Vec3;
use vector::vec3::normalizing::NormalizedAndLength;
use vector::vec3::orthogonal::Pair;
use vector::vec4::Vec4;

// What a function gives. Its numbers are shown as bits, its bools as 0 or 1.
pub(crate) trait Shown: Drop {
    fn answer(self) -> Answer;
}

// An answer is one already.
impl Shown for Answer {
    fn answer(self) -> Answer {
        self
    }
}

impl Shown for u32 {
    fn answer(self) -> Answer
        ensures { Gives 0 1 (one self) result }
    {
        Ok(Results::of([self]))
    }
}

impl Shown for f32 {
    fn answer(self) -> Answer
        ensures { Gives 0 1 (one (to_bits binary32 self)) result }
    {
        to_bits(self).answer()
    }
}

impl Shown for bool {
    fn answer(self) -> Answer
        ensures { Gives 0 1 (one (Masks.bit self)) result }
    {
        u32::from(self).answer()
    }
}

// A number and the mark of its root behind it.
impl Shown for MarkedRoot {
    fn answer(self) -> Answer
        ensures { Gives 0 2 (to_bits binary32 self.root ∷ Masks.bit self.exact ∷ 0 ∷ 0 ∷ 0 ∷ 0 ∷ []) result }
    {
        Ok(Results::of([to_bits(self.root), u32::from(self.exact)]))
    }
}

impl Shown for BVec3 {
    fn answer(self) -> Answer {
        Ok(Results::of([self.x, self.y, self.z].map(u32::from)))
    }
}

impl Shown for Vec3 {
    fn answer(self) -> Answer {
        Ok(Results::of([self.x, self.y, self.z].map(to_bits)))
    }
}

impl Shown for Vec4 {
    fn answer(self) -> Answer {
        Ok(Results::of([self.x, self.y, self.z, self.w].map(to_bits)))
    }
}

// A bool and the vector behind it.
impl Shown for Option<Vec3> {
    fn answer(self) -> Answer {
        let results = match self {
            Some(v) => [1, to_bits(v.x), to_bits(v.y), to_bits(v.z)],
            None => [0; 4],
        };
        Ok(Results::of(results))
    }
}

// A vector and the number behind it.
impl Shown for NormalizedAndLength {
    fn answer(self) -> Answer {
        self.normalized.extend(self.length).answer()
    }
}

impl Shown for Pair {
    fn answer(self) -> Answer {
        let Pair { first, second } = self;
        let both = [first.x, first.y, first.z, second.x, second.y, second.z];
        Ok(Results::of(both.map(to_bits)))
    }
}
