// The verdict on a frame, apart from doing what it says.
#![tactic(auto)]

pub mod judge;
mod lent;
mod pitch;
pub mod plan;
pub mod products;
