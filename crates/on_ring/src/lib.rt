// A decoder on a ring, apart from its samples' way in and out: the registers and their fitness, and a frame filtered
// between the rings as its plan says.
#![tactic(auto)]

pub mod planned;
pub mod registers;
