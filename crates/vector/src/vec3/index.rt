// A component by its index, as `Index` of src/f32/vec3.rs.
ghost use Rattle.std.specs.Prelude.{◌≡◌};
ghost use Rattle.vector.specs.Indexed as Indexed;

use crate::vec3::Vec3;

impl Vec3 {
    // The component at an index 0 to 2, or none, which is refusal 10.
    #[tactic(auto, unfolding(crate::specs::Indexed::component, crate::specs::Indexed::indexed))]
    pub fn component(self, index: u32) -> Option<f32>
        ensures { Indexed.answer_of result ≡ Indexed.component self index }
    {
        [self.x, self.y, self.z].get(index as usize).copied()
    }
}
