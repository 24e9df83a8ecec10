// Between three and four numbers.
ghost use Rattle.std.specs.Prelude.{◌≡◌};
ghost use Rattle.vector.specs.Homogeneous as Homogeneous;

use crate::vec3::Vec3;
use crate::vec4::Vec4;

impl Vec3 {
    // The four numbers of self and w.
    #[tactic(auto, unfolding(crate::specs::Homogeneous::extend))]
    pub fn extend(self, w: f32) -> Vec4
        ensures { result ≡ Homogeneous.extend self w }
    {
        Vec4 {
            x: self.x,
            y: self.y,
            z: self.z,
            w,
        }
    }

    // The first three numbers divided by the fourth.
    #[tactic(auto, unfolding(crate::specs::Homogeneous::from_homogeneous))]
    pub fn from_homogeneous(v: Vec4) -> Self
        ensures { result ≡ Homogeneous.from_homogeneous v }
    {
        Self::new(v.x, v.y, v.z) / v.w
    }

    // The four numbers of self and 1.0.
    #[tactic(auto, unfolding(crate::specs::Homogeneous::to_homogeneous))]
    pub fn to_homogeneous(self) -> Vec4
        ensures { result ≡ Homogeneous.to_homogeneous self }
    {
        self.extend(1.0)
    }
}
