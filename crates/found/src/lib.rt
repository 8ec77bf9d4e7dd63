// What is found in a frame: its record, its bits, and what the activation remembers of it.
#![tactic(auto)]

pub mod activation;
mod delayed;
mod lag_parameter;
mod taps;

ghost use Rattle.std.specs.Prelude.{◌≡◌, ◌&&◌, leb};
ghost use Rattle.found.specs.Found.{absent, present, is_ten_ms, found_in};

use crate::activation::{Activation, Memory, activation_bit};
use crate::delayed::Delayed;
use crate::lag_parameter::pitch_lag_parameter;
use lag::gain::gain_ltpf_on;
use lag::pitch::{PitchRecord, Present};
use rates::config::Lc3Config;
use rates::duration::FrameDuration;
use rates::lengths::lengths_of;
use search::pitch::Detected;

#[derive(Clone, Copy)]
pub struct Found {
    pub pitch: PitchRecord,
    pub nbits_ltpf: u32,
    pub memory: Memory,
}

// Absent: 1 bit, and nothing is remembered but the last correlation.
fn absent(memory: Memory) -> Found
    ensures { result ≡ absent memory }
{
    Found {
        pitch: PitchRecord::Absent,
        nbits_ltpf: 1,
        memory: Memory {
            mem_pitch: 0.0,
            mem_ltpf_active: false,
            mem_nc: 0.0,
            mem_mem_nc: memory.mem_nc,
        },
    }
}

// Present: 11 bits, with the index and the active mark.
fn present(memory: Memory, index: u32, a: Activation) -> Found
    ensures { result ≡ present memory index a }
{
    Found {
        pitch: PitchRecord::Present(Present {
            index,
            active: a.active,
        }),
        nbits_ltpf: 11,
        memory: Memory {
            mem_pitch: a.pitch,
            mem_ltpf_active: a.active,
            mem_nc: a.nc,
            mem_mem_nc: memory.mem_nc,
        },
    }
}

// Whether a frame lasts 10 ms.
fn is_ten_ms(n_ms: FrameDuration) -> bool
    ensures { result ≡ is_ten_ms n_ms }
{
    matches!(n_ms, FrameDuration::TenMs)
}

// Whether a pitch is present, with a lag of 17 to 114.
fn is_ready(d: Detected) -> bool
    ensures { result ≡ (d.present && leb 17 d.t_curr && leb d.t_curr 114) }
{
    d.present && (17..=114).contains(&d.t_curr)
}

// What is found in a frame: x is its signal at 12.8 kHz, d what the pitch search detected. Where no pitch
// is present, its lag is outside 17 to 114 or a table has not its length, it is absent.
pub fn found_in(
    c: Lc3Config,
    x: &[f32; 404],
    d: Detected,
    memory: Memory,
    correlation: &[f32],
    signal: &[f32],
    nbits: u32,
    near_nyquist: bool,
) -> Found
    ensures { result ≡ found_in c x.now d memory correlation.now signal.now nbits near_nyquist }
{
    let Ok(correlation) = <&[f32; 31]>::try_from(correlation) else {
        return absent(memory);
    };
    let Ok(signal) = <&[f32; 15]>::try_from(signal) else {
        return absent(memory);
    };
    if !is_ready(d) {
        return absent(memory);
    }
    let Lc3Config { fs, n_ms, .. } = c;
    let l = lengths_of(n_ms);
    let frame = Delayed {
        x,
        start: l.start,
        len12p8: l.len12p8,
    };
    let lag = pitch_lag_parameter(frame, d.t_curr, correlation);
    let on = gain_ltpf_on(fs, n_ms, nbits);
    let ten_ms = is_ten_ms(n_ms);
    let a = activation_bit(frame, lag, signal, memory, on, near_nyquist, ten_ms);
    present(memory, lag.pitch_index, a)
}
