// The encoder of the long-term post filter: a frame of samples in, its pitch record and the next
// state out. A state comes from `state::start`, and each frame is a call of its `frame`.
#![tactic(auto)]

pub mod frame;
mod history;
pub mod state;
