// Vector files: the numbers that they hold, and what a comparison with one writes.
#![tactic(auto)]

pub mod numbers;
pub mod part;
pub mod pitch;
pub mod read;
pub mod report;
