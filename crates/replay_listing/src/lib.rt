// The listing of a replay: a recording in, a table of what the decoder does out, in any cuts.
#![tactic(auto)]

pub mod machine;
