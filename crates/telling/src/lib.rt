// What a frame is going to do, told from its side information: for the replay, and for a C caller that asks before the
// frame. Neither samples nor coefficients are needed for that.
#![tactic(auto)]

pub mod rounding;
pub mod told;
