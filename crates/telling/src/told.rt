// What the plan of a frame tells of it, and the verdict that gives the plan.
ghost use Rattle.std.specs.Prelude.{◌≡◌};
ghost use Rattle.telling.specs.Told.{case_number, fitted_judged, told_of};

use crate::rounding::rounding_for;
use control::marks::Marks;
use filter::transition::Transition;
use judging::plan::{Plan, SideInfo, judge_side};
use lag::gain::Gain;
use lag::pitch::PitchRecord;
use lag::rescale::Lag;
use rates::answer::Reason;
use rates::config::Lc3Config;

// What an accepted frame is going to do: its case, whether it is active, its lag, its gain, and how the lag was rounded. An
// inactive one has a lag and the gain of its bits too.
#[derive(Clone, Copy)]
pub struct Told {
    pub transition: Transition,
    pub active: bool,
    pub lag: Lag,
    pub gain: Option<Gain>,
    pub rounding: Option<i32>,
}

// The number of a case, as docs/SCOPE.md counts them. Only what is told has it: nothing is computed by it.
pub fn case_number(transition: Transition) -> u32
    ensures { result ≡ case_number transition }
{
    match transition {
        Transition::Inactive => 1,
        Transition::Activated => 2,
        Transition::Deactivated => 3,
        Transition::ActiveNoPitchChange => 4,
        Transition::ActivePitchChanged => 5,
    }
}

// The verdict of a decoder on a frame whose set and samples are good, by what its fitness came to.
pub fn judge_fitted<R: Reason>(
    marks: Marks,
    fitted: Result<Lc3Config, R>,
    side: SideInfo,
) -> Result<Plan, R>
    ensures { result ≡ fitted_judged R.of marks side fitted }
{
    match judge_side(marks, fitted?, side) {
        Ok(plan) => Ok(plan),
        Err(refusal) => Err(R::refused(refusal)),
    }
}

// What a plan tells of its frame, whose pitch is this one.
pub fn told_of(plan: Plan, pitch: PitchRecord) -> Told
    ensures { result ≡ told_of plan pitch }
{
    Told {
        transition: plan.transition,
        active: plan.active,
        lag: plan.lag,
        gain: plan.gain,
        rounding: rounding_for(plan.config.fs, pitch),
    }
}
