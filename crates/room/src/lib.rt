// Tables of the greatest size that a scene file can ask for, owned in one place.
#![tactic(auto)]

pub mod room;
#[cfg(test)]
mod tests;
