// The listing of lags: a table of rates and pitch indices in, a table of lags out, in any cuts.
#![tactic(auto)]

pub mod machine;
