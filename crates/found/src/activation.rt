// The activation bit: whether the decoder's filter is to run over this frame.
ghost use Rattle.std.specs.Prelude.{◌≡◌, ◌+◌, ◌≤◌, ◌<◌};
ghost use Rattle.std.specs.Float.Ieee.{lt};
ghost use Rattle.std.specs.Int.Signed.{mag};
ghost use Rattle.floats.specs.Single.{◌⊖◌, float};
ghost use Rattle.found.specs.Activation.{dotted, no_delay, shifted, sums_of, nc_of, magnitude, starts, stays, active_of, activation};

use crate::delayed::Delayed;
use crate::lag_parameter::LagParameter;
use crate::taps::{moved, table_offset, with_tap};

// What the activation remembers of the last frames.
#[derive(Clone, Copy)]
pub struct Memory {
    pub mem_pitch: f32,
    pub mem_ltpf_active: bool,
    pub mem_nc: f32,
    pub mem_mem_nc: f32,
}

#[derive(Clone, Copy)]
pub struct Activation {
    pub active: bool,
    pub nc: f32,
    pub pitch: f32,
}

// The three sums of a normalised correlation.
#[derive(Clone, Copy)]
struct NcSums {
    nc_numerator: f32,
    no_delay_total: f32,
    shifted_total: f32,
}

// The signal at an entry, interpolated at d quarters.
fn dot_product(x: &[f32; 404], at: usize, d: i32, signal: &[f32; 15]) -> f32
    requires { (2 ≤ at) × (at + 2 < 404) × (mag d ≤ 3) }
    ensures { result ≡ dotted x.now at d signal.now 5 }
{
    let mut result = 0.0;
    for k in -2i32..=2 {
        let h_i_index = table_offset(k, d);
        result = with_tap(result, x, moved(at, -k), signal, 7, h_i_index);
    }
    result
}

// The sums over the frame, of its samples and of those that lie a lag before them.
fn nc_sums(frame: Delayed<'_>, pitch_int: usize, pitch_fr: u8, signal: &[f32; 15]) -> NcSums
    requires { (pitch_int ≤ 228) × (pitch_fr ≤ 3) }
    ensures { result ≡ sums_of (no_delay frame.entry.x.now frame.entry.start signal.now) (shifted frame.entry.x.now frame.entry.start pitch_int pitch_fr signal.now) frame.entry.len12p8 }
{
    let Delayed { x, start, len12p8 } = frame;
    let mut nc_numerator = 0.0;
    let mut no_delay_total = 0.0;
    let mut shifted_total = 0.0;
    // by index: a turn reads around two entries
    for n in 0..len12p8 {
        let no_delay = dot_product(x, start + n, 0, signal);
        let shifted = dot_product(x, start + n - pitch_int, pitch_fr as i32, signal);
        nc_numerator += no_delay * shifted;
        no_delay_total += no_delay * no_delay;
        shifted_total += shifted * shifted;
    }
    NcSums {
        nc_numerator,
        no_delay_total,
        shifted_total,
    }
}

// The normalised correlation. No root, or one that is not above 0.0, gives 0.0.
fn normalised(sums: NcSums) -> f32
    ensures { result ≡ nc_of sums }
{
    match root::sqrt(sums.no_delay_total * sums.shifted_total) {
        Some(nc_denominator) if nc_denominator > 0.0 => sums.nc_numerator / nc_denominator,
        _ => 0.0,
    }
}

// Whether two lags are less than 2.0 apart.
fn is_near(pitch: f32, mem_pitch: f32) -> bool
    ensures { result ≡ lt (magnitude (pitch ⊖ mem_pitch)) (float 2) }
{
    let change = pitch - mem_pitch;
    -2.0 < change && change < 2.0
}

// Whether an inactive filter starts.
fn starts(memory: Memory, nc: f32, ten_ms: bool) -> bool
    ensures { result ≡ starts memory nc ten_ms }
{
    (ten_ms || memory.mem_mem_nc > 0.94) && memory.mem_nc > 0.94 && nc > 0.94
}

// Whether an active filter stays on.
fn stays(memory: Memory, nc: f32, pitch: f32) -> bool
    ensures { result ≡ stays memory nc pitch }
{
    nc > 0.9 || (is_near(pitch, memory.mem_pitch) && nc - memory.mem_nc > -0.1 && nc > 0.84)
}

// Whether the filter is active: never with the gain off or near the Nyquist frequency, and else by
// whether it was active.
#[tactic(auto, unfolding(crate::specs::Activation::active_of))]
fn is_active(
    memory: Memory,
    gain_ltpf_on: bool,
    near_nyquist: bool,
    ten_ms: bool,
    nc: f32,
    pitch: f32,
) -> bool
    ensures { result ≡ active_of memory gain_ltpf_on near_nyquist ten_ms nc pitch }
{
    if !gain_ltpf_on || near_nyquist {
        return false;
    }
    if memory.mem_ltpf_active {
        stays(memory, nc, pitch)
    } else {
        starts(memory, nc, ten_ms)
    }
}

// The activation of a frame, with the correlation and the lag that the next frame remembers.
pub(crate) fn activation_bit(
    frame: Delayed<'_>,
    lag: LagParameter,
    signal: &[f32; 15],
    memory: Memory,
    gain_ltpf_on: bool,
    near_nyquist: bool,
    ten_ms: bool,
) -> Activation
    requires { (lag.pitch_int ≤ 228) × (lag.pitch_fr ≤ 3) }
    ensures { result ≡ activation frame.entry.x.now frame.entry.start frame.entry.len12p8 lag.pitch_int lag.pitch_fr signal.now memory gain_ltpf_on near_nyquist ten_ms }
{
    let pitch_int = lag.pitch_int;
    let pitch_fr = lag.pitch_fr;
    let nc = normalised(nc_sums(frame, pitch_int, pitch_fr, signal));
    let pitch = pitch_int as f32 + pitch_fr as f32 / 4.0;
    let active = is_active(memory, gain_ltpf_on, near_nyquist, ten_ms, nc, pitch);
    Activation { active, nc, pitch }
}
