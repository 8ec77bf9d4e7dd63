// The filter over straight lines: blocks of eight outputs, fades and the five transitions.
#![tactic(auto)]

mod block;
mod fade;
pub mod kept;
pub mod transition;
