// What the verdicts say, in three steps: the samples of each accepted ear are taken up from the buffer into its ring of
// inputs, each ear is filtered between its rings, and its outputs are handed back.
ghost use Rattle.std.specs.Prelude.{◌≡◌, ◌+◌, ◌*◌, ◌≤◌, length, take, drop, false, Ok};
ghost use Rattle.filter.specs.declared.transition.Transition.TheVariants.{Inactive};
ghost use Rattle.judging.specs.declared.plan.Plan.{Plan};
ghost use Rattle.interleave.specs.Turns.{lefts, rights, in_turn};
ghost use Rattle.ears.specs.Carry.{taken_up, stepped, handed, with_one};
ghost use Rattle.ears.specs.Required.{Room, Whole, Steppable, Still};

use coefficients::CoefficientSet;
use decoder::frame::FramedInPlace;
use ears_judging::ear::Ear;
use filter::transition::Transition;
use interleave::{deinterleave, interleave};
use judging::plan::Plan;
use on_ring::planned::filter_planned;
use on_ring::registers::move_on;
use rates::answer::Refusal;

// Takes the samples of the accepted ears up. One pass takes both; where one ear is refused, its samples go nowhere. What
// belongs to an ear stands apart: its ring of inputs is written here, and its ring of outputs read when they are handed back.
pub(crate) fn take_up(
    left: Result<Plan, Refusal>,
    left_start: usize,
    left_inputs: &mut [f32; 1080],
    right: Result<Plan, Refusal>,
    right_start: usize,
    right_inputs: &mut [f32; 1080],
    samples: &[f32],
)
    requires { Room left left_start samples.now × Room right right_start samples.now }
    ensures { (left_inputs.new ≡ taken_up left left_start (lefts samples.now) left_inputs.old) × (right_inputs.new ≡ taken_up right right_start (rights samples.now) right_inputs.old) × Whole left left_inputs.old × Whole right right_inputs.old }
{
    let nf = samples.len() / 2;
    match (left, right) {
        (Ok(_), Ok(_)) => deinterleave(
            samples,
            nf,
            left_inputs,
            left_start,
            right_inputs,
            right_start,
        ),
        (Ok(_), Err(_)) => {
            let mut nowhere = [0.0; 480];
            deinterleave(samples, nf, left_inputs, left_start, &mut nowhere, 0);
        }
        (Err(_), Ok(_)) => {
            let mut nowhere = [0.0; 480];
            deinterleave(samples, nf, &mut nowhere, 0, right_inputs, right_start);
        }
        (Err(_), Err(_)) => {}
    }
}

// An ear's frame, which stands in its ring of inputs if it is accepted. A refused ear keeps its state.
pub(crate) fn step_ear(
    ear: Ear,
    verdict: Result<Plan, Refusal>,
    kept: &mut [f32; 24],
    inputs: &[f32; 1080],
    outputs: &mut [f32; 1080],
    set: CoefficientSet,
) -> FramedInPlace
    requires { Steppable ear verdict kept.old inputs.now outputs.old set.numerators.now set.denominators.now }
    ensures { ((result, kept.new, outputs.new) ≡ stepped ear verdict kept.old inputs.now outputs.old set.entry.numerators.now set.entry.denominators.now) × Whole verdict outputs.old }
{
    let registers = ear.registers;
    match verdict {
        Err(refusal) => FramedInPlace {
            answer: Err(refusal),
            registers,
        },
        Ok(plan) => {
            filter_planned(
                registers.marks.lag.whole,
                registers.block_start_index,
                plan,
                kept,
                inputs,
                outputs,
                set,
            );
            FramedInPlace {
                answer: Ok(()),
                registers: move_on(registers, plan),
            }
        }
    }
}

// Whether an ear's frame changes its samples. Only a no has to be right: it spares the copying back.
fn changes(verdict: Result<Plan, Refusal>) -> bool
    ensures { result ≡ false → (plan : Plan) → verdict ≡ Ok plan → plan.transition ≡ Inactive }
{
    match verdict {
        Err(_) => false,
        Ok(plan) => !matches!(plan.transition, Transition::Inactive),
    }
}

#[derive(Clone, Copy)]
enum Which {
    Left,
    Right,
}

// Puts the samples of one ear into the buffer. Those of the other are put back as they were.
fn put_one(ear: Which, samples: &mut [f32], nf: usize, outputs: &[f32], start: usize)
    requires { (length samples.old ≡ 2 * nf) × (nf ≤ 480) × (start + nf ≤ length outputs.now) }
    ensures { samples.new ≡ with_one ear (take nf (drop start outputs.now)) samples.old }
{
    let mut lefts = [0.0; 480];
    let mut rights = [0.0; 480];
    deinterleave(samples, nf, &mut lefts, 0, &mut rights, 0);
    match ear {
        Which::Left => interleave(samples, nf, outputs, start, &rights, 0),
        Which::Right => interleave(samples, nf, &lefts, 0, outputs, start),
    }
}

// Hands the outputs of the accepted ears back. A refused ear's samples stay.
pub(crate) fn hand_back(
    left: Result<Plan, Refusal>,
    left_start: usize,
    left_outputs: &[f32; 1080],
    right: Result<Plan, Refusal>,
    right_start: usize,
    right_outputs: &[f32; 1080],
    samples: &mut [f32],
)
    requires { Room left left_start samples.old × Room right right_start samples.old × Still left left_start left_outputs.now (lefts samples.old) × Still right right_start right_outputs.now (rights samples.old) }
    ensures { samples.new ≡ in_turn (handed left left_start left_outputs.now (lefts samples.old)) (handed right right_start right_outputs.now (rights samples.old)) }
{
    if !changes(left) && !changes(right) {
        return;
    }
    let nf = samples.len() / 2;
    match (left, right) {
        (Ok(_), Ok(_)) => interleave(
            samples,
            nf,
            left_outputs,
            left_start,
            right_outputs,
            right_start,
        ),
        (Ok(_), Err(_)) => put_one(Which::Left, samples, nf, left_outputs, left_start),
        (Err(_), Ok(_)) => put_one(Which::Right, samples, nf, right_outputs, right_start),
        (Err(_), Err(_)) => {}
    }
}
