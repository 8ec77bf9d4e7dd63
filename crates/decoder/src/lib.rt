// The decoder of the long-term post filter on a ring: state, start, frame and loss mark.
#![tactic(auto)]

mod carry;
pub mod frame;
pub mod state;
