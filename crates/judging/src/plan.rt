// What a frame is to do, as its side information and the previous frame decide it.
ghost use Rattle.std.specs.Prelude.{◌≡◌};
ghost use Rattle.judging.specs.Judge.{plan_of, judged_side};

use crate::pitch::{is_active, lag_for};
use control::marks::Marks;
use filter::transition::{Transition, transition_of};
use lag::gain::{Gain, compute_gains_params};
use lag::pitch::PitchRecord;
use lag::rescale::Lag;
use rates::answer::Refusal;
use rates::config::Lc3Config;

// What a frame brings beside its samples and its set: the pitch record, and the frame's bits.
#[derive(Clone, Copy)]
pub struct SideInfo {
    pub pitch: PitchRecord,
    pub nbits: u32,
}

// What an accepted frame is to do. An inactive one has a lag, of 0, and the gain of its bits too.
#[derive(Clone, Copy)]
pub struct Plan {
    pub config: Lc3Config,
    pub active: bool,
    pub lag: Lag,
    pub gain: Option<Gain>,
    pub transition: Transition,
}

// The plan of a frame with this lag.
fn plan_of(marks: Marks, config: Lc3Config, side: SideInfo, lag: Lag) -> Plan
    ensures { result ≡ plan_of marks config side lag }
{
    let active = is_active(side.pitch);
    Plan {
        config,
        active,
        lag,
        gain: compute_gains_params(config.fs, config.n_ms, side.nbits),
        transition: transition_of(marks.ltpf_active_prev, active, marks.lag, lag),
    }
}

// The verdict as far as the side information decides it: it needs neither set nor samples.
#[tactic(auto, unfolding(crate::specs::Judge::judged_side))]
pub fn judge_side(marks: Marks, config: Lc3Config, side: SideInfo) -> Result<Plan, Refusal>
    ensures { result ≡ judged_side marks config side }
{
    if side.nbits > 3200 {
        return Err(Refusal::TooManyBits);
    }
    let lag = lag_for(config.fs, side.pitch).ok_or(Refusal::IndexTooLarge)?;
    Ok(plan_of(marks, config, side, lag))
}
