// The encoder's state and its start.
ghost use Rattle.std.specs.Prelude.{◌≡◌};
ghost use Rattle.encoder.specs.State.{cleared_at, started};

use found::activation::Memory;
use rates::answer::Answer;
use rates::config::config;
use signals::highpass::HighPass;

// The rate in Hz and the duration in microseconds, the previous lag at 6.4 kHz, what the activation
// and the high-pass remember, and the samples before the frame at the rate, at 12.8 and at 6.4 kHz,
// oldest first.
#[derive(Clone, Copy)]
pub struct Encoder {
    pub rate: u32,
    pub duration: u32,
    pub t_prev: usize,
    pub memory: Memory,
    pub h50: HighPass,
    pub x_s: [f32; 60],
    pub x_12p8: [f32; 276],
    pub x_6p4: [f32; 114],
}

// What a start gives back: a refused one has a state too.
#[derive(Clone, Copy)]
pub struct Started {
    pub answer: Answer,
    pub encoder: Encoder,
}

// The cleared state of a rate and a duration.
fn cleared(rate: u32, duration: u32) -> Encoder
    ensures { result ≡ cleared_at rate duration }
{
    Encoder {
        rate,
        duration,
        t_prev: 17,
        memory: Memory {
            mem_pitch: 0.0,
            mem_ltpf_active: false,
            mem_nc: 0.0,
            mem_mem_nc: 0.0,
        },
        h50: HighPass {
            h50_minus1: 0.0,
            h50_minus2: 0.0,
        },
        x_s: [0.0; 60],
        x_12p8: [0.0; 276],
        x_6p4: [0.0; 114],
    }
}

// Starts an encoder at a rate in Hz and a duration in microseconds. A refused start is at 48000 Hz
// and 10 ms. The decoder starts in the same steps; what both need is `config`, and the rest is their states.
pub fn start(rate: u32, duration: u32) -> Started
    ensures { result ≡ started rate duration }
{
    match config(rate, duration) {
        Ok(_) => Started {
            answer: Ok(()),
            encoder: cleared(rate, duration),
        },
        Err(refusal) => Started {
            answer: Err(refusal),
            encoder: cleared(48000, 10000),
        },
    }
}
