// Reading a call's arguments, and calling a function with them.
ghost use Rattle.std.specs.Prelude.{◌≡◌};
ghost use Rattle.vector.specs.Signs as Signs;

use crate::answer::{Answer, Refusal};
use crate::shown::Shown;
use scalar::bits::from_bits;
use std::slice::Iter;
use vector::bvec3::BVec3;
use vector::vec3::Vec3;
use vector::vec4::Vec4;

// What a function takes, read from the next words of a call.
pub(crate) trait Argument: Drop {
    fn read(words: &mut Iter<'_, u32>) -> Result<Self, Refusal>;
}

// An index, or the bits of a number.
impl Argument for u32 {
    fn read(words: &mut Iter<'_, u32>) -> Result<u32, Refusal> {
        words.next().copied().ok_or(Refusal::Malformed)
    }
}

impl Argument for f32 {
    fn read(words: &mut Iter<'_, u32>) -> Result<f32, Refusal> {
        Ok(from_bits(u32::read(words)?))
    }
}

impl Argument for bool {
    fn read(words: &mut Iter<'_, u32>) -> Result<bool, Refusal> {
        match u32::read(words)? {
            0 => Ok(false),
            1 => Ok(true),
            _ => Err(Refusal::Malformed),
        }
    }
}

impl Argument for BVec3 {
    fn read(words: &mut Iter<'_, u32>) -> Result<BVec3, Refusal> {
        Ok(BVec3 {
            x: bool::read(words)?,
            y: bool::read(words)?,
            z: bool::read(words)?,
        })
    }
}

impl Argument for Vec3 {
    fn read(words: &mut Iter<'_, u32>) -> Result<Vec3, Refusal> {
        Ok(Patterns::read(words)?.vector())
    }
}

impl Argument for Vec4 {
    fn read(words: &mut Iter<'_, u32>) -> Result<Vec4, Refusal> {
        Ok(Vec3::read(words)?.extend(f32::read(words)?))
    }
}

// The bit patterns of a vector.
#[derive(Clone, Copy)]
pub(crate) struct Patterns {
    pub x: u32,
    pub y: u32,
    pub z: u32,
}

impl Patterns {
    pub(crate) fn vector(self) -> Vec3
        ensures { result ≡ Signs.of_patterns self.x self.y self.z }
    {
        Vec3 {
            x: from_bits(self.x),
            y: from_bits(self.y),
            z: from_bits(self.z),
        }
    }
}

impl Argument for Patterns {
    fn read(words: &mut Iter<'_, u32>) -> Result<Patterns, Refusal> {
        Ok(Patterns {
            x: u32::read(words)?,
            y: u32::read(words)?,
            z: u32::read(words)?,
        })
    }
}

// The answer to a call of these words: of a constant, or of a function of one to three arguments.
pub(crate) fn constant<R: Shown>(words: &[u32], value: R) -> Answer {
    end(words.iter())?;
    value.answer()
}

// One function for each number of arguments, since no bound ranges over that number.
pub(crate) fn of_one<A: Argument, R: Shown, F: FnOnce(A) -> R>(words: &[u32], f: F) -> Answer
    requires { F.IsAlwaysCallable f }
{
    let mut words = words.iter();
    let a = A::read(&mut words)?;
    end(words)?;
    f(a).answer()
}

pub(crate) fn of_two<A: Argument, B: Argument, R: Shown, F: FnOnce(A, B) -> R>(
    words: &[u32],
    f: F,
) -> Answer
    requires { F.IsAlwaysCallable f }
{
    let mut words = words.iter();
    let a = A::read(&mut words)?;
    let b = B::read(&mut words)?;
    end(words)?;
    f(a, b).answer()
}

pub(crate) fn of_three<A: Argument, B: Argument, C: Argument, R: Shown, F: FnOnce(A, B, C) -> R>(
    words: &[u32],
    f: F,
) -> Answer
    requires { F.IsAlwaysCallable f }
{
    let mut words = words.iter();
    let a = A::read(&mut words)?;
    let b = B::read(&mut words)?;
    let c = C::read(&mut words)?;
    end(words)?;
    f(a, b, c).answer()
}

// A function takes all words.
fn end(mut words: Iter<'_, u32>) -> Result<(), Refusal> {
    match words.next() {
        Some(_) => Err(Refusal::Malformed),
        None => Ok(()),
    }
}
