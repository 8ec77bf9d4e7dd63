// The lag lookup by a rate in Hz.
ghost use Rattle.std.specs.Prelude.{◌≡◌};
ghost use Rattle.c_telling.specs.Lookups.{no_lag_for, lag_at};

use lag::rescale::look_up_lag;
use rates::answer::{Answer, Refusal};
use rates::table::row_of;

// The lag of an index and how it was rounded, as C has it: numbers beside the answer, zeros where the lookup is refused.
#[derive(Clone, Copy)]
pub struct LagForC {
    pub answer: Answer,
    pub whole: u32,
    pub quarter: u32,
    pub rounding: i32,
}

// A refused lookup.
fn no_lag_for(refusal: Refusal) -> LagForC
    ensures { result ≡ no_lag_for refusal }
{
    LagForC {
        answer: Err(refusal),
        whole: 0,
        quarter: 0,
        rounding: 0,
    }
}

// The lag of an index at a rate, checked in this order.
pub fn look_up(rate: u32, index: u32) -> LagForC
    ensures { result ≡ lag_at rate index }
{
    let Some(fs) = row_of(rate) else {
        return no_lag_for(Refusal::UnknownRate);
    };
    let Some(found) = look_up_lag(fs, index) else {
        return no_lag_for(Refusal::IndexTooLarge);
    };
    LagForC {
        answer: Ok(()),
        whole: found.lag.whole as u32,
        quarter: found.lag.quarter as u32,
        rounding: found.rounding,
    }
}
