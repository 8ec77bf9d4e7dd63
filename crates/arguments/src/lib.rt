// A program's arguments: the options that every program has, and the inputs that are named.
#![tactic(auto)]

pub mod inputs;
pub mod options;
