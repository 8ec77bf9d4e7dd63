// The long-term post filter for C: functions over arrays that the caller owns, which decode, encode, pack a pitch and tell
// of lags and frames, and functions that give lengths and the version.
// include/nabiteke.h is their face.
#![tactic(auto)]

pub mod decoder_calls;
pub mod ear_calls;
pub mod encoder_calls;
pub mod lag_calls;
pub mod lengths;
pub mod pitch_calls;
pub mod told_calls;
pub mod version;
