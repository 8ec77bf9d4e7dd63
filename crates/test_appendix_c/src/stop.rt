// Why the rest of a file is not compared.
use std::fmt;
use std::fmt::Display;

// What could not be read, or was refused.
#[derive(Clone, Copy)]
pub enum Stop {
    End,
    Kind,
    CommentCutOff,
    CommentTooLong,
    StartCutOff,
    StartRefused,
    FrameCutOff,
    FrameRefused,
    CaseCutOff,
    CaseRefused,
}

impl Display for Stop {
    fn fmt<W: fmt::Write>(&self, f: &mut fmt::Formatter<W>) -> fmt::Result {
        f.write_str(match self {
            Stop::End => "the file ends without its end mark",
            Stop::Kind => "a record of an unknown kind",
            Stop::CommentCutOff => "a comment that is cut off",
            Stop::CommentTooLong => "a comment that is too long",
            Stop::StartCutOff => "a start that is cut off",
            Stop::StartRefused => "a start that is refused",
            Stop::FrameCutOff => "a frame that is cut off or too long",
            Stop::FrameRefused => "a frame that is refused",
            Stop::CaseCutOff => "a case that is cut off",
            Stop::CaseRefused => "a case that is refused",
        })
    }
}
