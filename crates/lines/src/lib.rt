// Tab-separated text that is read: the fields of a line, the line that is being read, and a listing of lines in calls.
#![tactic(auto)]

pub mod field;
pub mod held;
pub mod machine;
