// A frame and a loss mark, as far as their row goes.
ghost use Rattle.std.specs.Prelude.{◌≡◌};
ghost use Rattle.replaying.specs.Frames.{judged_marks, played_by, lost_marks, replayed_content};

use control::fitness::fit_config;
use control::marks::Marks;
use control::next::{advance, unsettle};
use judging::plan::{Plan, SideInfo};
use lag::pitch::PitchRecord;
use rates::answer::Refusal;
use telling::told::{Told, judge_fitted, told_of};

// What the row of an accepted frame shows: what its plan tells, and the settled report.
#[derive(Clone, Copy)]
pub struct Columns {
    pub told: Told,
    pub settled: bool,
}

// What answers a line: a refusal, the columns of a frame, or none for a lost one.
pub type Row = Result<Option<Columns>, Refusal>;

// The marks after a line's content, and the line's row.
#[derive(Clone, Copy)]
pub struct Played {
    pub marks: Marks,
    pub row: Row,
}

// The verdict of the decoder on a frame whose set and samples are good.
#[tactic(auto, unfolding(crate::specs::Frames::judged_marks))]
fn judge_marks(marks: Marks, side: SideInfo) -> Result<Plan, Refusal>
    ensures { result ≡ judged_marks marks side }
{
    judge_fitted(marks, fit_config(marks), side)
}

// What a verdict on a frame with this pitch leads to.
fn play(marks: Marks, pitch: PitchRecord, verdict: Result<Plan, Refusal>) -> Played
    ensures { result ≡ played_by marks pitch verdict }
{
    match verdict {
        Err(refusal) => Played {
            marks,
            row: Err(refusal),
        },
        Ok(plan) => {
            let next = advance(marks, plan.active, plan.lag);
            let told = told_of(plan, pitch);
            let settled = next.settled;
            Played {
                marks: next,
                row: Ok(Some(Columns { told, settled })),
            }
        }
    }
}

// A loss mark.
#[tactic(auto, unfolding(crate::specs::Frames::lost_marks))]
fn lose(marks: Marks) -> Played
    ensures { result ≡ lost_marks marks }
{
    match fit_config(marks) {
        Err(refusal) => Played {
            marks,
            row: Err(refusal),
        },
        Ok(_) => {
            let lost = unsettle(marks);
            Played {
                marks: lost,
                row: Ok(None),
            }
        }
    }
}

// What came of a frame, as the decoder takes it.
pub fn replay_content(marks: Marks, content: Option<SideInfo>) -> Played
    ensures { result ≡ replayed_content marks content }
{
    match content {
        None => lose(marks),
        Some(side) => play(marks, side.pitch, judge_marks(marks, side)),
    }
}
