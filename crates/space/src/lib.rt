// What every other crate speaks of: points of space, roots, refusals, and numbers that stand for kinds.
#![tactic(auto)]

pub mod point;
pub mod points;
pub mod refusal;
pub mod refusals;
pub mod root;
pub mod unknown;
