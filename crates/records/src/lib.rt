// The records of a scene file.
#![tactic(auto)]

mod bytes;
mod catalogue;
mod joint;
pub mod make;
mod node;
mod point;
mod probed;
mod raw;
pub mod record;
