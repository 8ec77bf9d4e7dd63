// A line: whether it counts, and what comes of it.
ghost use Rattle.std.specs.Prelude.{◌≡◌};
ghost use Rattle.replaying.specs.Steps.{follows, skipped, stepped_entry, stepped};

use crate::frame::{Row, replay_content};
use control::marks::Marks;
use entries::line::{Entry, read_line};
use rates::answer::Refusal;

// What is known after a line, and the line's row: `last` is the number of the last frame that counted, if there was one.
#[derive(Clone, Copy)]
pub struct Stepped {
    pub last: Option<u32>,
    pub marks: Marks,
    pub row: Row,
}

// Whether a frame's number is one above the last. The first may be any.
fn follows(last: Option<u32>, frame: u32) -> bool
    ensures { result ≡ follows last frame }
{
    last.is_none_or(|before| frame as u64 == before as u64 + 1)
}

// A line that does not count.
fn skip(last: Option<u32>, marks: Marks, refusal: Refusal) -> Stepped
    ensures { result ≡ skipped last marks refusal }
{
    Stepped {
        last,
        marks,
        row: Err(refusal),
    }
}

// A line that is well formed counts if its number follows.
#[tactic(auto, unfolding(crate::specs::Steps::stepped_entry))]
fn step_entry(last: Option<u32>, marks: Marks, entry: Entry) -> Stepped
    ensures { result ≡ stepped_entry last marks entry }
{
    if !follows(last, entry.frame) {
        return skip(last, marks, Refusal::WrongFrameNumber);
    }
    let played = replay_content(marks, entry.content);
    Stepped {
        last: Some(entry.frame),
        marks: played.marks,
        row: played.row,
    }
}

// A line, given without its newline.
pub fn step(last: Option<u32>, marks: Marks, line: &[u8]) -> Stepped
    ensures { result ≡ stepped last marks line.now }
{
    match read_line(line) {
        Err(_) => skip(last, marks, Refusal::MalformedLine),
        Ok(entry) => step_entry(last, marks, entry),
    }
}
