// The function for C that decodes a frame of both ears. Starts, loss marks and settled reports are the decoder's own, on
// the arrays of each ear.
ghost use Rattle.std.specs.Prelude.{◌≤◌, ◌≡◌};
ghost use Rattle.nabiteke.specs.DecoderArrays.{arrays};
ghost use Rattle.nabiteke.specs.EarCalls.{pitch_at, ear_of, headset_arrays, given_both, both_call};

use c_arrays::pitch::pitch_from;
use c_arrays::registers::{read_registers, write_numbers_if_done};
use ears::frame::frame_both;
use ears_judging::ear::Ear;

// An ear in the caller's numbers, with its pitch: the three numbers from `at` on.
fn read_ear(numbers: &[u32; 8], sides: &[u32; 7], at: usize) -> Ear
    requires { at ≤ 4 }
    ensures { result ≡ ear_of numbers.now (pitch_at sides.now at) }
{
    let registers = read_registers(numbers);
    let pitch = pitch_from(sides[at], sides[at + 1], sides[at + 2]);
    Ear { registers, pitch }
}

// Filters one frame of both ears in place. The seven numbers are the left pitch's three, the right pitch's, and nbits.
#[unsafe(no_mangle)]
pub extern "C" fn nabiteke_decoder_frame_both_(
    left_numbers: &mut [u32; 8],
    left_kept: &mut [f32; 24],
    left_inputs: &mut [f32; 1080],
    left_outputs: &mut [f32; 1080],
    right_numbers: &mut [u32; 8],
    right_kept: &mut [f32; 24],
    right_inputs: &mut [f32; 1080],
    right_outputs: &mut [f32; 1080],
    numerators: &[f32],
    denominators: &[f32],
    sides: &[u32; 7],
    samples: &mut [f32],
    answers: &mut [u32; 2],
)
    ensures { (answers.new, headset_arrays (arrays left_numbers.new left_kept.new left_inputs.new left_outputs.new) (arrays right_numbers.new right_kept.new right_inputs.new right_outputs.new), samples.new) ≡ both_call (headset_arrays (arrays left_numbers.old left_kept.old left_inputs.old left_outputs.old) (arrays right_numbers.old right_kept.old right_inputs.old right_outputs.old)) (given_both numerators.now denominators.now sides.now samples.old) }
{
    let left = read_ear(left_numbers, sides, 0);
    let right = read_ear(right_numbers, sides, 3);
    let both = frame_both(
        left,
        left_kept,
        left_inputs,
        left_outputs,
        right,
        right_kept,
        right_inputs,
        right_outputs,
        numerators,
        denominators,
        sides[6],
        samples,
    );
    let left_answer = write_numbers_if_done(left_numbers, both.left);
    let right_answer = write_numbers_if_done(right_numbers, both.right);
    *answers = [left_answer, right_answer];
}
