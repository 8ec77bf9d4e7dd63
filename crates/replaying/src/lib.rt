// A replay line by line: what the decoder would do on the frames of a recording. Neither samples nor coefficients are
// needed for that.
#![tactic(auto)]

pub mod frame;
pub mod step;
