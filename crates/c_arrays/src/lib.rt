// What a C caller's numbers stand for: flags and answers, a decoder's registers, a pitch. No function here asks anything,
// so that any bytes of the caller's will do.
#![tactic(auto)]

pub mod pitch;
pub mod registers;
pub mod words;
