// Two rings that hold the past inputs and outputs in blocks of a frame, and a frame filtered between them.
#![tactic(auto)]

mod ring;
pub mod samples;
