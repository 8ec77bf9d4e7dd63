// Both ears over one coefficient set: a frame of two decoders whose samples stand in one buffer, left and right in turn.
#![tactic(auto)]

mod carry;
pub mod frame;
