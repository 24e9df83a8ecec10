// A vector brought to a largest size of at least 1 and below 2, by a power of two,
// and the direction that is taken of it without a test.
ghost use Rattle.std.specs.Prelude.{◌≡◌};
ghost use Rattle.scalar.specs.Powers.{times_power, log2};
ghost use Rattle.scalar.specs.SizeBits.{largest_bits, size_of_bits};
ghost use Rattle.vector.specs.Vectors.{each};
ghost use Rattle.vector.specs.Scaled as Scaled;
ghost use Rattle.vector.specs.DirectionOf as DirectionOf;

use crate::vec3::Vec3;
use scalar::powers::{largest_bits, log2_of_bits, power_of_two};

impl Vec3 {
    // Each component times the power of two, rounded once.
    // Zeros stay, and so does a vector that is not finite.
    #[tactic(auto, using(crate::proofs::scaling::ScaledBits::scaled_other, crate::proofs::scaling::ScaledBits::scaled_by_bits))]
    pub fn scaled(self) -> Self
        ensures { result ≡ Scaled.scaled self }
    {
        let b = largest_bits(self.x, self.y, self.z);
        if b >= 0x7f80_0000 {
            return self; // ScaledBits.scaled_other
        }
        self.scaled_by(b)
    }

    // The direction of a vector that has one. Nothing asks whether it has one:
    // the numbers of any other are NaNs and zeros.
    #[tactic(auto, using(crate::proofs::scaling::UncheckedLaws::unchecked_by_bits))]
    pub fn direction_unchecked(self) -> Self
        ensures { result ≡ DirectionOf.direction_unchecked self }
    {
        let s = self.scaled_by(largest_bits(self.x, self.y, self.z));
        s * s.length_recip() // UncheckedLaws.unchecked_by_bits
    }

    // Each component times the power of two that brings the largest size to at least 1 and below 2.
    // The largest size has the bits b. Each product is rounded once.
    #[tactic(auto, using(crate::proofs::scaling::ScaledByLaws::twice, crate::proofs::scaling::ScaledByLaws::once))]
    fn scaled_by(self, b: u32) -> Self
        requires { b ≡ largest_bits self.x self.y self.z }
        ensures { result ≡ each (times_power (log2 (size_of_bits b))) self }
    {
        let j = log2_of_bits(b);
        if j < 22 {
            // the power is above all f32: 2^127 and then the rest, both exact (ScaledByLaws.twice)
            return self * power_of_two(22) * power_of_two(127 + j);
        }
        self * power_of_two(j) // ScaledByLaws.once
    }
}
