// Scene files: one reader for every make.
#![tactic(auto)]

mod check;
pub mod counts;
mod file;
mod header;
pub mod load;
pub mod make_number;
mod nodes;
mod order;
pub mod read;
mod rows;
pub mod tables;
mod whole;
