// A line: the number of a frame, and what came of it.
ghost use Rattle.std.specs.Prelude.{◌≡◌};
ghost use Rattle.entries.specs.Lines.{is_lost, numbered, line_read};

use crate::side::read_side;
use judging::plan::SideInfo;
use lines::field::{Malformed, read_number, split_at_tab};

// A frame, and the side information with which it came: a lost one came with none.
#[derive(Clone, Copy)]
pub struct Entry {
    pub frame: u32,
    pub content: Option<SideInfo>,
}

// Whether a text is the word `lost`.
fn is_lost(text: &[u8]) -> bool
    ensures { result ≡ is_lost text.now }
{
    text == b"lost".as_slice()
}

// The line of a frame's number and of what stands after it.
#[tactic(auto, unfolding(crate::specs::Lines::numbered))]
fn numbered(frame: u32, rest: &[u8]) -> Result<Entry, Malformed>
    ensures { result ≡ numbered frame rest.now }
{
    let content = if is_lost(rest) {
        None
    } else {
        Some(read_side(rest)?)
    };
    Ok(Entry { frame, content })
}

// What a line says, given without its newline.
#[tactic(auto, unfolding(crate::specs::Lines::line_read))]
pub fn read_line(line: &[u8]) -> Result<Entry, Malformed>
    ensures { result ≡ line_read line.now }
{
    let (number, rest) = split_at_tab(line).ok_or(Malformed)?;
    numbered(read_number(number, 9)?, rest)
}
