// Scenes: node tables, their whole lists, and the distance of a checked scene.
#![tactic(auto)]

mod block;
mod cut;
pub mod distance;
mod joining;
mod keeping;
pub mod lawful;
pub mod listing;
pub mod neighbourhood;
pub mod prune;
pub mod pruned;
pub mod scene;
pub mod value;
mod waiting;
pub mod whole;
