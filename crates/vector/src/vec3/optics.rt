// Reflection, refraction and the angle between two vectors.
ghost use Rattle.std.specs.Prelude.{◌≡◌};
ghost use Rattle.vector.specs.Optics as Optics;

use crate::vec3::Vec3;
use scalar::acos::acos_approx;
use scalar::root::sqrt;

impl Vec3 {
    // The reflection of self on a surface with the given normal.
    #[tactic(auto, unfolding(crate::specs::Optics::reflect))]
    pub fn reflect(self, normal: Self) -> Self
        ensures { result ≡ Optics.reflect self normal }
    {
        self - 2.0 * self.dot(normal) * normal
    }

    // The refraction of self at a surface with the given normal and ratio of indices eta.
    // ZERO where all is reflected.
    #[tactic(auto, unfolding(crate::specs::Optics::refract, crate::specs::Optics::refract_k))]
    pub fn refract(self, normal: Self, eta: f32) -> Self
        ensures { result ≡ Optics.refract self normal eta }
    {
        let n_dot_i = normal.dot(self);
        let k = 1.0 - eta * eta * (1.0 - n_dot_i * n_dot_i);
        if k >= 0.0 {
            eta * self - (eta * n_dot_i + sqrt(k)) * normal
        } else {
            Self::ZERO
        }
    }

    // The angle between two vectors, in radians.
    #[tactic(auto, unfolding(crate::specs::Optics::angle_between))]
    pub fn angle_between(self, rhs: Self) -> f32
        ensures { result ≡ Optics.angle_between self rhs }
    {
        acos_approx(self.dot(rhs) / sqrt(self.length_squared() * rhs.length_squared()))
    }
}
