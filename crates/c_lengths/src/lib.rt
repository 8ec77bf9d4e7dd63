// What a caller has to know before its first frame: how long a frame and the coefficient arrays are. C has no option, so 0
// stands for none. The two counts are a function each, as nabiteke hands them to C.
#![tactic(auto)]

ghost use Rattle.std.specs.Prelude.{◌≡◌};
ghost use Rattle.c_lengths.specs.Lengths.{frame_length, numerator_count, denominator_count};

use rates::config::config;
use rates::table::row_of;

// The samples of a frame, 0 where the rate or the duration is unknown.
pub fn frame_length(rate: u32, duration: u32) -> usize
    ensures { result ≡ frame_length rate duration }
{
    match config(rate, duration) {
        Ok(found) => found.nf,
        Err(_) => 0,
    }
}

// The entries of a rate's four numerator rows, 0 where the rate is unknown.
#[tactic(auto, using(crate::proofs::Orders::order))]
pub fn numerator_count(rate: u32) -> usize
    ensures { result ≡ numerator_count rate }
{
    match row_of(rate) {
        Some(found) => 4 * (found.l_den - 1),
        None => 0,
    }
}

// The entries of a rate's four denominator rows, 0 where the rate is unknown.
#[tactic(auto, using(crate::proofs::Orders::order))]
pub fn denominator_count(rate: u32) -> usize
    ensures { result ≡ denominator_count rate }
{
    match row_of(rate) {
        Some(found) => 4 * (found.l_den + 1),
        None => 0,
    }
}
