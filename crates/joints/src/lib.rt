// Joints: what one means, and the kinds in use.
#![tactic(auto)]

mod defaults;
pub mod house;
pub mod joint;
pub mod radius;
pub mod soft;
