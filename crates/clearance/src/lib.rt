// What a scene answers to a line of a script, and figures worked out by hand.
#![tactic(auto)]

pub mod answer;
pub mod call;
pub mod display;
pub mod fault;
pub mod figures;
pub mod reading;
pub mod script;
#[cfg(test)]
mod tests;
