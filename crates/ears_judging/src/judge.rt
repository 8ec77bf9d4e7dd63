// The verdicts on the ears. Nothing is read before some ear has passed what comes before it.
ghost use Rattle.std.specs.Prelude.{◌≡◌};
ghost use Rattle.judging.specs.Judge.{ranged};
ghost use Rattle.ears_judging.specs.Judge.{named_alike, judged_both};
ghost use Rattle.ears_judging.specs.Verdicts.{until_samples, ranged_both, judged_alike};
ghost use Rattle.ears_judging.specs.Required.{FrameLong};

use crate::ear::Ear;
use coefficients::CoefficientSet;
use control::marks::Marks;
use interleave::ears_in_range;
use judging::judge::judge_lent;
use judging::plan::{Plan, SideInfo, judge_side};
use on_ring::registers::ring_fits;
use rates::answer::{Answer, Refusal};
use rates::config::{Lc3Config, config};

// The verdicts on both ears.
#[derive(Clone, Copy)]
pub struct Verdicts {
    pub left: Result<Plan, Refusal>,
    pub right: Result<Plan, Refusal>,
}

// One refusal for both.
fn refuse_both(refusal: Refusal) -> Verdicts
    ensures { result ≡ record { left = Err refusal; right = Err refusal } }
{
    Verdicts {
        left: Err(refusal),
        right: Err(refusal),
    }
}

// Whether both states name one rate and one duration, fit or not.
fn named_alike(left: Marks, right: Marks) -> bool
    ensures { result ≡ named_alike left right }
{
    left.rate == right.rate && left.duration == right.duration
}

// An ear by itself, but for its samples' values: 9, then what is lent, which both ears share, then 6 and 7.
fn judge_ear(
    ear: Ear,
    fits: bool,
    config: Lc3Config,
    lent: Answer,
    nbits: u32,
) -> Result<Plan, Refusal>
    ensures { result ≡ until_samples fits ear.registers.marks config lent (record { pitch = ear.pitch; nbits = nbits }) }
{
    if !fits {
        return Err(Refusal::UnfitState);
    }
    lent?;
    let pitch = ear.pitch;
    judge_side(ear.registers.marks, config, SideInfo { pitch, nbits })
}

// 8, where nothing else refuses the frame.
fn with_range(verdict: Result<Plan, Refusal>, inside: bool) -> Result<Plan, Refusal>
    ensures { result ≡ ranged inside verdict }
{
    let plan = verdict?;
    if inside {
        Ok(plan)
    } else {
        Err(Refusal::SampleOutOfRange)
    }
}

// The same for both: the samples are looked at only where some ear is not refused yet.
fn with_ranges(
    left: Result<Plan, Refusal>,
    right: Result<Plan, Refusal>,
    samples: &[f32],
) -> Verdicts
    ensures { result ≡ ranged_both left right samples.now }
{
    if left.is_err() && right.is_err() {
        return Verdicts { left, right };
    }
    let inside = ears_in_range(samples);
    Verdicts {
        left: with_range(left, inside.left),
        right: with_range(right, inside.right),
    }
}

// Each ear by itself, where both name this configuration.
fn judge_alike(
    left: Ear,
    right: Ear,
    config: Lc3Config,
    set: CoefficientSet,
    nbits: u32,
    samples: &[f32],
) -> Verdicts
    requires { FrameLong config }
    ensures { result ≡ judged_alike left right config set.entry.numerators.now set.entry.denominators.now nbits samples.now }
{
    let left_fits = ring_fits(left.registers, config);
    let right_fits = ring_fits(right.registers, config);
    if !left_fits && !right_fits {
        return refuse_both(Refusal::UnfitState);
    }
    let lent = judge_lent(config.fs.l_den, set, samples.len(), 2 * config.nf);
    let left_verdict = judge_ear(left, left_fits, config, lent, nbits);
    let right_verdict = judge_ear(right, right_fits, config, lent, nbits);
    with_ranges(left_verdict, right_verdict, samples)
}

// 13 for both comes first; then each ear is judged by itself.
pub fn judge_both(
    left: Ear,
    right: Ear,
    set: CoefficientSet,
    nbits: u32,
    samples: &[f32],
) -> Verdicts
    ensures { result ≡ judged_both left right set.entry.numerators.now set.entry.denominators.now nbits samples.now }
{
    let marks = left.registers.marks;
    if !named_alike(marks, right.registers.marks) {
        return refuse_both(Refusal::EarsDiffer);
    }
    match config(marks.rate, marks.duration) {
        Ok(found) => judge_alike(left, right, found, set, nbits, samples),
        Err(_) => refuse_both(Refusal::UnfitState),
    }
}
