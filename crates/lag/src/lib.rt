// Lag and gain: the pitch record, an index as a lag and a lag as an index, and bits as a gain.
#![tactic(auto)]

pub mod gain;
pub mod index;
pub mod pitch;
pub mod rescale;
