// Gauges: the whole scene, which is always exact.
#![tactic(auto)]

pub mod law;
pub mod scene_march;
pub mod whole_scene;
