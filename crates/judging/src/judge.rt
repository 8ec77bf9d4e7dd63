// The verdict on a frame: the refusals in their order, each reading no more than it needs.
ghost use Rattle.std.specs.Prelude.{◌≡◌, Ok};
ghost use Rattle.judging.specs.Judge.{judged};
ghost use Rattle.judging.specs.Lent.{lent_of};

use crate::lent::{set_counts, set_finite};
use crate::plan::{Plan, SideInfo, judge_side};
use coefficients::CoefficientSet;
use control::marks::Marks;
use floats::all_in_range;
use rates::answer::{Answer, Refusal};
use rates::config::Lc3Config;

// Looks at the set and at how many samples there are: 3, 4 and 5. `due` is how many there are to be.
#[tactic(auto, unfolding(crate::specs::Lent::lent_of))]
pub fn judge_lent(l_den: usize, set: CoefficientSet, count: usize, due: usize) -> Answer
    ensures { result ≡ lent_of l_den set.entry.numerators.now set.entry.denominators.now count due }
{
    if !set_counts(l_den, set) {
        return Err(Refusal::CoefficientCount);
    }
    if !set_finite(set) {
        return Err(Refusal::CoefficientNotFinite);
    }
    if count != due {
        return Err(Refusal::SampleCount);
    }
    Ok(())
}

// The verdict on a frame given to fit marks.
#[tactic(auto, unfolding(crate::specs::Judge::judged, crate::specs::Lent::lent_of))]
pub fn judge(
    marks: Marks,
    config: Lc3Config,
    set: CoefficientSet,
    side: SideInfo,
    samples: &[f32],
) -> Result<Plan, Refusal>
    ensures { result ≡ judged marks (Ok config) set.entry.numerators.now set.entry.denominators.now side samples.now }
{
    judge_lent(config.fs.l_den, set, samples.len(), config.nf)?;
    let plan = judge_side(marks, config, side)?;
    if !all_in_range(samples) {
        return Err(Refusal::SampleOutOfRange);
    }
    Ok(plan)
}
