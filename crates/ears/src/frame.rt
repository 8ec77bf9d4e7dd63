// A frame of both ears.
ghost use Rattle.std.specs.Prelude.{◌≡◌};
ghost use Rattle.ears.specs.InPlace.{both_in_place};

use crate::carry::{hand_back, step_ear, take_up};
use coefficients::CoefficientSet;
use decoder::frame::FramedInPlace;
use ears_judging::ear::Ear;
use ears_judging::judge::judge_both;

// What a call gives back of each ear: all but its arrays.
#[derive(Clone, Copy)]
pub struct BothFramed {
    pub left: FramedInPlace,
    pub right: FramedInPlace,
}

// Decodes one frame of both ears, each in a state of its own whose coefficients and rings are lent: filters the samples of
// both in place, with the lent rows, as each ear's pitch record and the bits that both share say. No ear looks at anything
// of the other but the rate and the duration that it names.
pub fn frame_both(
    left: Ear,
    left_kept: &mut [f32; 24],
    left_inputs: &mut [f32; 1080],
    left_outputs: &mut [f32; 1080],
    right: Ear,
    right_kept: &mut [f32; 24],
    right_inputs: &mut [f32; 1080],
    right_outputs: &mut [f32; 1080],
    numerators: &[f32],
    denominators: &[f32],
    nbits: u32,
    samples: &mut [f32],
) -> BothFramed
    ensures { (result, left_kept.new, left_inputs.new, left_outputs.new, right_kept.new, right_inputs.new, right_outputs.new, samples.new) ≡ both_in_place left left_kept.old left_inputs.old left_outputs.old right right_kept.old right_inputs.old right_outputs.old numerators.now denominators.now nbits samples.old }
{
    let set = CoefficientSet {
        numerators,
        denominators,
    };
    let verdicts = judge_both(left, right, set, nbits, samples);
    let left_start = left.registers.block_start_index;
    let right_start = right.registers.block_start_index;
    take_up(
        verdicts.left,
        left_start,
        left_inputs,
        verdicts.right,
        right_start,
        right_inputs,
        samples,
    );
    let both = BothFramed {
        left: step_ear(
            left,
            verdicts.left,
            left_kept,
            left_inputs,
            left_outputs,
            set,
        ),
        right: step_ear(
            right,
            verdicts.right,
            right_kept,
            right_inputs,
            right_outputs,
            set,
        ),
    };
    hand_back(
        verdicts.left,
        left_start,
        left_outputs,
        verdicts.right,
        right_start,
        right_outputs,
        samples,
    );
    both
}
