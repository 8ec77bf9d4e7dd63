// The decoder's functions for C.
ghost use Rattle.std.specs.Prelude.{◌≡◌, List, Float};
ghost use Rattle.nabiteke.specs.DecoderArrays.{arrays};
ghost use Rattle.nabiteke.specs.DecoderCalls.{given, start_call, frame_call, lost_call, settled_call};

use c_arrays::pitch::side_from;
use c_arrays::registers::{read_registers, write_numbers, write_numbers_if_done};
use c_arrays::words::{answer_word, as_flag, is_yes};
use decoder::frame::{frame_in_place, lost_in_place};
use decoder::state::start;

// Starts a decoder, or starts it anew.
#[unsafe(no_mangle)]
pub extern "C" fn nabiteke_decoder_start_(
    numbers: &mut [u32; 8],
    kept: &mut [f32; 24],
    inputs: &mut [f32; 1080],
    outputs: &mut [f32; 1080],
    rate: u32,
    duration: u32,
) -> u32
    ensures { (result, arrays numbers.new kept.new inputs.new outputs.new) ≡ start_call rate duration }
{
    let started = start(rate, duration);
    let next_kept = started.decoder.kept;
    let x_hat_mem = started.decoder.x_hat_mem;
    let x_hat_ltpf_mem = started.decoder.x_hat_ltpf_mem;
    write_numbers(numbers, started.decoder.registers);
    *kept = next_kept;
    *inputs = x_hat_mem;
    *outputs = x_hat_ltpf_mem;
    answer_word(started.answer)
}

// Filters one frame of samples in place.
#[unsafe(no_mangle)]
pub extern "C" fn nabiteke_decoder_frame_(
    numbers: &mut [u32; 8],
    kept: &mut [f32; 24],
    inputs: &mut [f32; 1080],
    outputs: &mut [f32; 1080],
    numerators: &[f32],
    denominators: &[f32],
    pitch_present: u32,
    pitch_index: u32,
    pitch_active: u32,
    nbits: u32,
    samples: &mut [f32],
) -> u32
    ensures { (result, arrays numbers.new kept.new inputs.new outputs.new, samples.new) ≡ frame_call (arrays numbers.old kept.old inputs.old outputs.old) (given numerators.now denominators.now pitch_present pitch_index pitch_active nbits samples.old) }
{
    let registers = read_registers(numbers);
    let side = side_from(pitch_present, pitch_index, pitch_active, nbits);
    let framed = frame_in_place(
        registers,
        kept,
        inputs,
        outputs,
        numerators,
        denominators,
        side,
        samples,
    );
    write_numbers_if_done(numbers, framed)
}

// Marks that frames were lost before the next one.
#[unsafe(no_mangle)]
pub extern "C" fn nabiteke_decoder_lost_(numbers: &mut [u32; 8]) -> u32
    ensures { (kept inputs outputs : List Float) → (result, arrays numbers.new kept inputs outputs) ≡ lost_call (arrays numbers.old kept inputs outputs) }
{
    let registers = read_registers(numbers);
    let marked = lost_in_place(registers);
    write_numbers_if_done(numbers, marked)
}

// Whether the decoder has settled.
#[unsafe(no_mangle)]
pub extern "C" fn nabiteke_decoder_settled_(numbers: &[u32; 8]) -> u32
    ensures { (kept inputs outputs : List Float) → result ≡ settled_call (arrays numbers.now kept inputs outputs) }
{
    as_flag(is_yes(numbers[7]))
}
