// The rows of a replay as text.
#![tactic(auto)]

pub mod row;
