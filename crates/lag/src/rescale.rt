// A lag at 12.8 kHz rescaled to a rate, as whole samples and quarters, and how it was rounded.
ghost use Rattle.std.specs.Prelude.{◌≡◌, ◌+◌, ◌*◌, ◌%◌};
ghost use Rattle.lag.specs.Lag.{lag_of, found_lag, rounding, looked_up_lag};

use crate::index::unscaled_lag;
use rates::table::Rate;

#[derive(Clone, Copy, PartialEq, Eq)]
pub struct Lag {
    pub whole: usize,
    pub quarter: usize,
}

// A lag, and by how many eighths of a quarter rounding made it longer; below 0, shorter.
#[derive(Clone, Copy)]
pub struct RoundedLag {
    pub lag: Lag,
    pub rounding: i32,
}

// A lag of so many quarters at 12.8 kHz, at r times 8000 Hz. Halves are rounded upward.
pub fn rescale(r: u32, quarters: u16) -> Lag
    ensures { result ≡ lag_of r quarters }
{
    let p_up = (5 * r as usize * quarters as usize + 4) >> 3;
    Lag {
        whole: p_up >> 2,
        quarter: p_up & 3,
    }
}

// The lag of an index at a rate, as a decoder keeps it.
pub fn compute_filter_parameters(fs: Rate, pitch_index: u32) -> Option<Lag>
    ensures { result ≡ found_lag fs pitch_index }
{
    let quarters = unscaled_lag(pitch_index)?;
    Some(rescale(fs.r, quarters))
}

// What the shift of `rescale` drops of 5·R·q + 4.
fn dropped(r: u32, quarters: u16) -> usize
    ensures { result ≡ (5 * r * quarters + 4) % 8 }
{
    (5 * r as usize * quarters as usize + 4) & 7
}

// The rounding of such a rescaled lag: up by the 4 that is added, and down by what is dropped.
fn rounding(r: u32, quarters: u16) -> i32
    ensures { result ≡ rounding r quarters }
{
    4 - dropped(r, quarters) as i32
}

// The lag lookup: the lag of an index at a rate, and how it was rounded.
pub fn look_up_lag(fs: Rate, pitch_index: u32) -> Option<RoundedLag>
    ensures { result ≡ looked_up_lag fs pitch_index }
{
    let quarters = unscaled_lag(pitch_index)?;
    Some(RoundedLag {
        lag: rescale(fs.r, quarters),
        rounding: rounding(fs.r, quarters),
    })
}
