// Correlations, and the pitch search at 6.4 kHz.
#![tactic(auto)]

pub mod correlate;
pub mod pitch;
mod sums;
