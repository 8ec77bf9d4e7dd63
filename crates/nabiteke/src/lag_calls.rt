// The function for C that looks a lag up.
ghost use Rattle.std.specs.Prelude.{◌≡◌};
ghost use Rattle.nabiteke.specs.LagCalls.{lag_call};

use c_arrays::words::answer_word;
use c_telling::lookup::look_up;

// The lag of a pitch index at a rate, whole samples and quarters, and how it was rounded.
#[unsafe(no_mangle)]
pub extern "C" fn nabiteke_lag_of_(
    rate: u32,
    index: u32,
    lag: &mut [u32; 2],
    rounding: &mut i32,
) -> u32
    ensures { (result, lag.new, rounding.new) ≡ lag_call rate index }
{
    let found = look_up(rate, index);
    *lag = [found.whole, found.quarter];
    *rounding = found.rounding;
    answer_word(found.answer)
}
