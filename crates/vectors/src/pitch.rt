// A pitch record as vector files have it.
ghost use Rattle.std.specs.Prelude.{◌≡◌};
ghost use Rattle.vectors.specs.Pitch.{pitch_numbers};

use lag::pitch::{PitchRecord, sent_of};

// Its numbers: whether there is a pitch, the index and the active mark, which are 0 where there is none.
pub fn numbers_of(pitch: PitchRecord) -> [u32; 3]
    ensures { result ≡ pitch_numbers pitch }
{
    match sent_of(pitch) {
        Some(found) => [1, found.index, found.active as u32],
        None => [0; 3],
    }
}
