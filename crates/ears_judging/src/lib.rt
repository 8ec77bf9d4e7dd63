// The verdicts on both ears: each is judged as a single decoder would be, and what they share is judged once.
#![tactic(auto)]

pub mod ear;
pub mod judge;
