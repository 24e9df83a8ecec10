// Projections onto a vector, and what they leave.
ghost use Rattle.std.specs.Prelude.{◌≡◌};
ghost use Rattle.vector.specs.Projections as Projections;

use crate::vec3::Vec3;

impl Vec3 {
    // The projection of self onto rhs.
    #[tactic(auto, unfolding(crate::specs::Projections::project_onto))]
    pub fn project_onto(self, rhs: Self) -> Self
        ensures { result ≡ Projections.project_onto self rhs }
    {
        let other_len_sq_rcp = 1.0 / rhs.dot(rhs);
        rhs * self.dot(rhs) * other_len_sq_rcp
    }

    // The rejection of self from rhs: self less its projection.
    #[tactic(auto, unfolding(crate::specs::Projections::reject_from))]
    pub fn reject_from(self, rhs: Self) -> Self
        ensures { result ≡ Projections.reject_from self rhs }
    {
        self - self.project_onto(rhs)
    }

    // The projection of self onto a unit vector rhs.
    #[tactic(auto, unfolding(crate::specs::Projections::project_onto_normalized))]
    pub fn project_onto_normalized(self, rhs: Self) -> Self
        ensures { result ≡ Projections.project_onto_normalized self rhs }
    {
        rhs * self.dot(rhs)
    }

    // The rejection of self from a unit vector rhs.
    #[tactic(auto, unfolding(crate::specs::Projections::reject_from_normalized))]
    pub fn reject_from_normalized(self, rhs: Self) -> Self
        ensures { result ≡ Projections.reject_from_normalized self rhs }
    {
        self - self.project_onto_normalized(rhs)
    }
}
