// One descent: a cell's list cut down for a child of it, and the child's mark.
#![tactic(auto)]

pub mod child;
pub mod descend;
pub mod far;
