// Layer 2, vectors: Vec3, its masks and its four-number companion. Names and order are the Rust's.
#![tactic(auto)]

pub mod bvec3;
pub mod vec3;
pub mod vec4;
