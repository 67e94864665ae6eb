// Marches: from a point toward another until something is near, through any gauge of distances.
#![tactic(auto)]

pub mod begin;
pub mod display;
pub mod gauge;
pub mod motion;
pub mod motions;
pub mod moving;
pub mod outcome;
pub mod reading;
mod set_point;
pub mod step;
pub mod whole;
