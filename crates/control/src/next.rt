// The marks after a frame and after a loss mark.
ghost use Rattle.std.specs.Prelude.{◌≡◌};
ghost use Rattle.control.specs.State.{run_after, settled_after};
ghost use Rattle.control.specs.Next.{next_marks, unsettled};

use crate::marks::{Marks, SETTLED_LIMIT};
use lag::rescale::Lag;

// The run of inactive frames after one more frame.
fn run_after(active: bool, run: u32) -> u32
    ensures { result ≡ run_after active run }
{
    if active {
        return 0;
    }
    if run < SETTLED_LIMIT {
        return run + 1;
    }
    SETTLED_LIMIT
}

// Whether the decoder has settled after a run of that length.
fn settled_after(settled: bool, run: u32) -> bool
    ensures { result ≡ settled_after settled run }
{
    settled || run == SETTLED_LIMIT
}

// The marks after a frame, by whether it is active, and by its lag.
#[tactic(auto, unfolding(crate::specs::Next::next_marks))]
pub fn advance(marks: Marks, active: bool, lag: Lag) -> Marks
    ensures { result ≡ next_marks marks active lag }
{
    let run = run_after(active, marks.run);
    let settled = settled_after(marks.settled, run);
    Marks {
        rate: marks.rate,
        duration: marks.duration,
        run,
        ltpf_active_prev: active,
        settled,
        lag,
    }
}

// The marks after a loss mark: what comes next settles anew.
pub fn unsettle(marks: Marks) -> Marks
    ensures { result ≡ unsettled marks }
{
    Marks {
        run: 0,
        settled: false,
        ..marks
    }
}
