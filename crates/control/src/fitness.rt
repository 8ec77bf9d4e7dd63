// Which marks are fit: those that a start and frames can have led to, and some more.
ghost use Rattle.std.specs.Prelude.{◌≡◌};
ghost use Rattle.control.specs.State.{lag_fits, run_fits, fit, fit_config};

use crate::marks::{Marks, SETTLED_LIMIT};
use lag::rescale::{Lag, rescale};
use rates::answer::Refusal;
use rates::config::{Lc3Config, config};
use rates::table::Rate;

// Whether the rate has the lag, if it is used.
#[tactic(auto, unfolding(crate::specs::State::lag_fits, lag::specs::Lag::quarters))]
fn lag_fits(fs: Rate, active: bool, lag: Lag) -> bool
    ensures { result ≡ lag_fits fs active lag }
{
    if !active {
        return true;
    }
    let smallest = rescale(fs.r, 128);
    let largest = rescale(fs.r, 912);
    smallest.whole <= lag.whole && lag.whole <= largest.whole && lag.quarter <= 3
}

// Whether a run of inactive frames can have that length.
#[tactic(auto, unfolding(crate::specs::State::run_fits))]
fn run_fits(active: bool, run: u32, settled: bool) -> bool
    ensures { result ≡ run_fits active run settled }
{
    if active {
        run == 0
    } else {
        run < SETTLED_LIMIT || run == SETTLED_LIMIT && settled
    }
}

// Whether marks fit the configuration that they name.
pub fn fits(marks: Marks, config: Lc3Config) -> bool
    ensures { result ≡ fit config marks }
{
    let active = marks.ltpf_active_prev;
    lag_fits(config.fs, active, marks.lag) && run_fits(active, marks.run, marks.settled)
}

// The configuration of fit marks. Unfit ones are refused.
pub fn fit_config(marks: Marks) -> Result<Lc3Config, Refusal>
    ensures { result ≡ fit_config marks }
{
    let found = config(marks.rate, marks.duration).map_err(|_| Refusal::UnfitState)?;
    if fits(marks, found) {
        Ok(found)
    } else {
        Err(Refusal::UnfitState)
    }
}
