// Text that is written into a lent buffer: numbers as decimals, and the cells of a row.
#![tactic(auto)]

pub mod cell;
pub mod decimal;
pub mod signed;
