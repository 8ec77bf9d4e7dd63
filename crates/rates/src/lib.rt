// What both ends of the filter share: the six rates, the two frame durations, and the answers.
#![tactic(auto)]

pub mod answer;
pub mod config;
pub mod duration;
pub mod lengths;
pub mod table;
