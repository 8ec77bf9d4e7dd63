// What the pitch record of a frame asks for.
ghost use Rattle.std.specs.Prelude.{◌≡◌};
ghost use Rattle.judging.specs.Pitch.{is_active, lag_for};

use lag::pitch::{PitchRecord, sent_of};
use lag::rescale::{Lag, compute_filter_parameters};
use rates::table::Rate;

// Whether the record switches the filter on.
pub(crate) fn is_active(pitch: PitchRecord) -> bool
    ensures { result ≡ is_active pitch }
{
    match sent_of(pitch) {
        None => false,
        Some(present) => present.active,
    }
}

// The lag of a frame, 0 where the filter is off. An index too large has none, active or not.
pub(crate) fn lag_for(fs: Rate, pitch: PitchRecord) -> Option<Lag>
    ensures { result ≡ lag_for fs pitch }
{
    let none = Lag {
        whole: 0,
        quarter: 0,
    };
    let Some(present) = sent_of(pitch) else {
        return Some(none);
    };
    let lag = compute_filter_parameters(fs, present.index)?;
    Some(if present.active { lag } else { none })
}
