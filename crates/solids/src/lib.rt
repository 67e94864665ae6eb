// Solids: what one means, and the kinds in use.
#![tactic(auto)]

pub mod axis;
pub mod catalogue;
mod defaults;
mod distances;
pub mod kinds;
pub mod probed;
pub mod solid;
#[cfg(test)]
mod tests;
