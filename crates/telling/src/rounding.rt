// How the lag of a frame was rounded.
ghost use Rattle.std.specs.Prelude.{◌≡◌};
ghost use Rattle.telling.specs.Roundings.{rounding_for};

use lag::pitch::{PitchRecord, sent_of};
use lag::rescale::look_up_lag;
use rates::table::Rate;

// The rounding of a pitch's lag at a rate. An absent or inactive pitch has no lag, and so none.
pub(crate) fn rounding_for(fs: Rate, pitch: PitchRecord) -> Option<i32>
    ensures { result ≡ rounding_for fs pitch }
{
    let present = sent_of(pitch)?;
    if !present.active {
        return None;
    }
    let found = look_up_lag(fs, present.index)?;
    Some(found.rounding)
}
