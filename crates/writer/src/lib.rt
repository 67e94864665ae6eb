// Writing a scene back as a file.
#![tactic(auto)]

mod header;
pub mod rewrite;
mod rows;
pub mod write;
