// The encoder's functions for C.
ghost use Rattle.std.specs.Prelude.{◌≡◌};
ghost use Rattle.c_encoder.specs.State.{arrays};
ghost use Rattle.nabiteke.specs.EncoderCalls.{given, start_call, frame_call};

use c_arrays::pitch::write_record;
use c_arrays::words::{answer_word, is_yes};
use c_encoder::state::{
    read_encoder, write_floats, write_floats_if_done, write_numbers, write_numbers_if_done,
};
use encoder::state::start;

// Starts an encoder, or starts it anew.
#[unsafe(no_mangle)]
pub extern "C" fn nabiteke_encoder_start_(
    numbers: &mut [u32; 4],
    memories: &mut [f32; 5],
    x_s: &mut [f32; 60],
    x_12p8: &mut [f32; 276],
    x_6p4: &mut [f32; 114],
    rate: u32,
    duration: u32,
) -> u32
    ensures { (result, arrays numbers.new memories.new x_s.new x_12p8.new x_6p4.new) ≡ start_call rate duration }
{
    let started = start(rate, duration);
    write_numbers(numbers, started.encoder);
    write_floats(memories, x_s, x_12p8, x_6p4, started.encoder);
    answer_word(started.answer)
}

// Finds the pitch of one frame of samples.
#[unsafe(no_mangle)]
pub extern "C" fn nabiteke_encoder_frame_(
    numbers: &mut [u32; 4],
    memories: &mut [f32; 5],
    x_s: &mut [f32; 60],
    x_12p8: &mut [f32; 276],
    x_6p4: &mut [f32; 114],
    resampling: &[f32],
    correlation: &[f32],
    signal: &[f32],
    samples: &[i16],
    nbits: u32,
    near_nyquist: u32,
    record: &mut [u32; 4],
) -> u32
    ensures { (result, arrays numbers.new memories.new x_s.new x_12p8.new x_6p4.new, «record».new) ≡ frame_call (arrays numbers.old memories.old x_s.old x_12p8.old x_6p4.old) (given resampling.now correlation.now signal.now samples.now nbits near_nyquist) }
{
    let encoder = read_encoder(numbers, memories, x_s, x_12p8, x_6p4);
    let near = is_yes(near_nyquist);
    let framed = encoder.frame(resampling, correlation, signal, samples, nbits, near);
    write_record(record, framed.pitch, framed.nbits_ltpf);
    write_floats_if_done(memories, x_s, x_12p8, x_6p4, framed);
    write_numbers_if_done(numbers, framed)
}
