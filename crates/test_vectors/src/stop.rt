// Why the rest of a file is not compared.
use std::fmt;
use std::fmt::Display;

// What of the file could not be read.
#[derive(Clone, Copy)]
pub enum Stop {
    End,
    Kind,
    Set,
    Call,
    State,
}

impl Display for Stop {
    fn fmt<W: fmt::Write>(&self, f: &mut fmt::Formatter<W>) -> fmt::Result {
        f.write_str(match self {
            Stop::End => "the file ends without its end mark",
            Stop::Kind => "a record of an unknown kind",
            Stop::Set => "a set that is cut off or too long",
            Stop::Call => "a call that is cut off or too long",
            Stop::State => "a state that is cut off",
        })
    }
}
