// An encoder's state in a C caller's arrays. No function here asks anything, so that any bytes of the caller's will do.
#![tactic(auto)]

pub mod state;
