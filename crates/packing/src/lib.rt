// The pitch record in bytes, as the recorder stores it: written and read.
#![tactic(auto)]

pub mod read;
pub mod write;
