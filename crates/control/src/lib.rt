// What a decoder remembers as a few numbers: the marks, their fitness, and the marks after a frame.
#![tactic(auto)]

pub mod fitness;
pub mod marks;
pub mod next;
