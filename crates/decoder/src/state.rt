// The decoder's state, and its start.
ghost use Rattle.std.specs.Prelude.{◌≡◌};
ghost use Rattle.decoder.specs.State.{cleared, started};

use control::marks::clear;
use on_ring::registers::Registers;
use rates::answer::Answer;
use rates::config::config;

// The registers; the previous frame's coefficients, 11 of the numerator and 13 of the denominator; and the rings of past
// inputs and outputs.
#[derive(Clone, Copy)]
pub struct Decoder {
    pub registers: Registers,
    pub kept: [f32; 24],
    pub x_hat_mem: [f32; 1080],
    pub x_hat_ltpf_mem: [f32; 1080],
}

// What a start gives back: a refused one has a state too.
#[derive(Clone, Copy)]
pub struct Started {
    pub answer: Answer,
    pub decoder: Decoder,
}

// A state with no past.
#[tactic(auto, unfolding(crate::specs::State::cleared))]
fn cleared(rate: u32, duration: u32) -> Decoder
    ensures { result ≡ cleared rate duration }
{
    let registers = Registers {
        marks: clear(rate, duration),
        block_start_index: 0,
    };
    Decoder {
        registers,
        kept: [0.0; 24],
        x_hat_mem: [0.0; 1080],
        x_hat_ltpf_mem: [0.0; 1080],
    }
}

// Starts a decoder. A refused start hands back the cleared state of 48000 Hz and 10 ms.
pub fn start(rate: u32, duration: u32) -> Started
    ensures { result ≡ started rate duration }
{
    match config(rate, duration) {
        Ok(_) => Started {
            answer: Ok(()),
            decoder: cleared(rate, duration),
        },
        Err(refusal) => Started {
            answer: Err(refusal),
            decoder: cleared(48000, 10000),
        },
    }
}
