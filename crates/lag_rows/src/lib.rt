// The rows of the listing of lags: what a line asks, and the text that answers it.
#![tactic(auto)]

pub mod row;
