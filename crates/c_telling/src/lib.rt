// What a C caller asks about lags and frames, in numbers of C's widths: the lag of an index at a rate, and what a frame is
// going to do.
#![tactic(auto)]

pub mod lookup;
pub mod told;
