// A frame's pitch as the caller's numbers: what a call is given, and what it gives.
ghost use Rattle.std.specs.Prelude.{◌≡◌};
ghost use Rattle.c_arrays.specs.Pitch.{pitch_from, side_from, record_of};

use crate::words::{as_flag, is_yes};
use judging::plan::SideInfo;
use lag::pitch::{PitchRecord, Present, sent_of};

// The pitch record that three numbers are.
pub fn pitch_from(present: u32, index: u32, active: u32) -> PitchRecord
    ensures { result ≡ pitch_from present index active }
{
    if !is_yes(present) {
        return PitchRecord::Absent;
    }
    PitchRecord::Present(Present {
        index,
        active: is_yes(active),
    })
}

// The same, with the frame's bits.
#[tactic(auto, unfolding(crate::specs::Pitch::side_from))]
pub fn side_from(present: u32, index: u32, active: u32, nbits: u32) -> SideInfo
    ensures { result ≡ side_from present index active nbits }
{
    SideInfo {
        pitch: pitch_from(present, index, active),
        nbits,
    }
}

// A pitch record and its size, in bits or in bytes, as four numbers.
pub fn write_record(record: &mut [u32; 4], pitch: PitchRecord, size: u32)
    ensures { «record».new ≡ record_of pitch size }
{
    *record = match sent_of(pitch) {
        None => [0, 0, 0, size],
        Some(present) => [1, present.index, as_flag(present.active), size],
    };
}
