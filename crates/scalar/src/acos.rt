// The approximate arc cosine of src/f32/math.rs.
ghost use Rattle.std.specs.Prelude.{◌≡◌};
ghost use Rattle.scalar.specs.Acos as Acos;

use crate::root::sqrt;
use crate::sign::abs;

// Close to the arc cosine of v clamped to -1 .. 1; based on DirectXMath's XMScalarAcos.
#[tactic(auto, using(crate::proofs::ComposedLaws::acos_cases))]
pub fn acos_approx(v: f32) -> f32
    ensures { result ≡ Acos.acos_approx v }
{
    let nonnegative = v >= 0.0;
    let x = abs(v);
    let mut omx = 1.0 - x;
    // an `if`: `max` would give 0 for a NaN
    if omx < 0.0 {
        omx = 0.0;
    }
    let root = sqrt(omx);
    let mut result = ((((((-0.001_262_491_1 * x + 0.006_670_09) * x - 0.017_088_126) * x
        + 0.030_891_88)
        * x
        - 0.050_174_303)
        * x
        + 0.088_978_99)
        * x
        - 0.214_598_8)
        * x
        + 1.570_796_3;
    result *= root;
    if nonnegative {
        result
    } else {
        3.1415927 - result
    }
}
