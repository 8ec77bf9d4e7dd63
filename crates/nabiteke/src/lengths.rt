// What a caller has to know before its first frame: how long a frame and the coefficient arrays are.
ghost use Rattle.std.specs.Prelude.{◌≡◌};
ghost use Rattle.c_lengths.specs.Lengths.{frame_length, numerator_count, denominator_count};

use c_lengths::{denominator_count, frame_length, numerator_count};

// The samples of a frame, 0 where the rate or the duration is unknown.
#[unsafe(no_mangle)]
pub extern "C" fn nabiteke_frame_length(rate: u32, duration: u32) -> usize
    ensures { result ≡ frame_length rate duration }
{
    frame_length(rate, duration)
}

// The entries of a rate's four numerator rows, 0 where the rate is unknown.
#[unsafe(no_mangle)]
pub extern "C" fn nabiteke_numerator_count(rate: u32) -> usize
    ensures { result ≡ numerator_count rate }
{
    numerator_count(rate)
}

// The entries of a rate's four denominator rows, 0 where the rate is unknown.
#[unsafe(no_mangle)]
pub extern "C" fn nabiteke_denominator_count(rate: u32) -> usize
    ensures { result ≡ denominator_count rate }
{
    denominator_count(rate)
}
