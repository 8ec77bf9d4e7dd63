// The lines of a recording: what a booth wrote of each frame.
#![tactic(auto)]

pub mod line;
pub mod side;
