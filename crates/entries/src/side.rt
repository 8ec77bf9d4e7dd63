// The side information of a frame as a booth writes it: pitch, active and nbits, separated by tabs.
ghost use Rattle.std.specs.Prelude.{◌≡◌, Ok};
ghost use Rattle.entries.specs.Sides.{side_with, side_of, marks_read, side_read};

use judging::plan::SideInfo;
use lag::pitch::{PitchRecord, Present};
use lines::field::{Malformed, read_field, read_number, split_at_tab};

// The side information of a pitch, an active mark and a number of bits: where there is no pitch, it cannot be active.
fn side_with(index: Option<u32>, active: bool, nbits: u32) -> Result<SideInfo, Malformed>
    ensures { result ≡ side_with (Ok index) active nbits }
{
    let pitch = match index {
        Some(index) => PitchRecord::Present(Present { index, active }),
        None if active => return Err(Malformed),
        None => PitchRecord::Absent,
    };
    Ok(SideInfo { pitch, nbits })
}

// The same where the mark is as it was read: it is 0 or 1.
fn side_of(index: Option<u32>, mark: u32, nbits: u32) -> Result<SideInfo, Malformed>
    ensures { result ≡ side_of (Ok index) (Ok mark) (Ok nbits) }
{
    if mark > 1 {
        return Err(Malformed);
    }
    side_with(index, mark == 1, nbits)
}

// What stands after the pitch: the mark, of one digit, and the number of bits.
#[tactic(auto, unfolding(crate::specs::Sides::marks_read))]
fn read_marks(index: Option<u32>, rest: &[u8]) -> Result<SideInfo, Malformed>
    ensures { result ≡ marks_read (Ok index) rest.now }
{
    let (mark, nbits) = split_at_tab(rest).ok_or(Malformed)?;
    side_of(index, read_number(mark, 1)?, read_number(nbits, 9)?)
}

// The three fields: all are needed, and nothing else may stand there. `read_line` begins alike, but splits off another
// field and hands the rest to another function.
#[tactic(auto, using(crate::proofs::LongLines::no_pitch_field), unfolding(crate::specs::Sides::side_read))]
pub fn read_side(text: &[u8]) -> Result<SideInfo, Malformed>
    ensures { result ≡ side_read text.now }
{
    let (pitch, rest) = split_at_tab(text).ok_or(Malformed)?;
    read_marks(read_field(pitch, 9)?, rest)
}
