// An encoder's state in the caller's arrays: four numbers, and four arrays of floats.
ghost use Rattle.std.specs.Prelude.{◌≡◌};
ghost use Rattle.rates.specs.Answers.{number_of};
ghost use Rattle.c_arrays.specs.Words.{narrowed, where_done};
ghost use Rattle.c_encoder.specs.State.{arrays, read_encoder, floats_of, numbers_by};

use c_arrays::words::{answer_word, as_flag, is_yes, narrow, wide};
use encoder::frame::Framed;
use encoder::state::Encoder;
use found::activation::Memory;
use signals::highpass::HighPass;

// The state in the caller's arrays, which C lends one by one.
#[tactic(auto, unfolding(crate::specs::State::read_encoder))]
pub fn read_encoder(
    numbers: &[u32; 4],
    memories: &[f32; 5],
    x_s: &[f32; 60],
    x_12p8: &[f32; 276],
    x_6p4: &[f32; 114],
) -> Encoder
    ensures { result ≡ read_encoder (arrays numbers.now memories.now x_s.now x_12p8.now x_6p4.now) }
{
    Encoder {
        rate: numbers[0],
        duration: numbers[1],
        t_prev: wide(numbers[2]),
        memory: Memory {
            mem_pitch: memories[0],
            mem_ltpf_active: is_yes(numbers[3]),
            mem_nc: memories[1],
            mem_mem_nc: memories[2],
        },
        h50: HighPass {
            h50_minus1: memories[3],
            h50_minus2: memories[4],
        },
        x_s: *x_s,
        x_12p8: *x_12p8,
        x_6p4: *x_6p4,
    }
}

// Puts the floats of a state into the caller's arrays: what it remembers, and its three histories.
pub fn write_floats(
    memories: &mut [f32; 5],
    x_s: &mut [f32; 60],
    x_12p8: &mut [f32; 276],
    x_6p4: &mut [f32; 114],
    encoder: Encoder,
)
    ensures { (memories.new, x_s.new, x_12p8.new, x_6p4.new) ≡ floats_of encoder }
{
    *memories = [
        encoder.memory.mem_pitch,
        encoder.memory.mem_nc,
        encoder.memory.mem_mem_nc,
        encoder.h50.h50_minus1,
        encoder.h50.h50_minus2,
    ];
    let next_s = encoder.x_s;
    let next_12p8 = encoder.x_12p8;
    let next_6p4 = encoder.x_6p4;
    *x_s = next_s;
    *x_12p8 = next_12p8;
    *x_6p4 = next_6p4;
}

// The same with the state of a frame's result, where the frame is done.
pub fn write_floats_if_done(
    memories: &mut [f32; 5],
    x_s: &mut [f32; 60],
    x_12p8: &mut [f32; 276],
    x_6p4: &mut [f32; 114],
    res: Framed,
)
    ensures { (memories.new, x_s.new, x_12p8.new, x_6p4.new) ≡ where_done res.answer (floats_of res.encoder) (memories.old, x_s.old, x_12p8.old, x_6p4.old) }
{
    if res.answer.is_ok() {
        write_floats(memories, x_s, x_12p8, x_6p4, res.encoder);
    }
}

// Puts the numbers of a state into the caller's.
pub fn write_numbers(numbers: &mut [u32; 4], encoder: Encoder)
    ensures { numbers.new ≡ numbers_by narrowed encoder }
{
    *numbers = [
        encoder.rate,
        encoder.duration,
        narrow(encoder.t_prev),
        as_flag(encoder.memory.mem_ltpf_active),
    ];
}

// The same with the state of a frame's result, where the frame is done. Gives the number of its answer. The decoder's of this
// name differs in what is written, which is all but two lines of it.
pub fn write_numbers_if_done(numbers: &mut [u32; 4], res: Framed) -> u32
    ensures { (result ≡ number_of res.answer) × (numbers.new ≡ where_done res.answer (numbers_by narrowed res.encoder) numbers.old) }
{
    if res.answer.is_ok() {
        write_numbers(numbers, res.encoder);
    }
    answer_word(res.answer)
}
