// The lag parameter: the lag at 12.8 kHz to a quarter of a sample, and its index.
ghost use Rattle.std.specs.Prelude.{◌≡◌, ◌+◌, ◌-◌, ◌≤◌, ◌<◌, length};
ghost use Rattle.std.specs.Int.Signed.{mag};
ghost use Rattle.found.specs.LagParameter.{whole_entry, interpolated, looked_at, fraction_of, coded, carried, lag_among, lag_parameter};

use crate::delayed::Delayed;
use crate::taps::{moved, table_offset, with_tap};
use lag::index::lag_index;
use search::correlate::correlate;

// A lag after a negative fraction has been carried: whole samples and quarters, with its index.
#[derive(Clone, Copy)]
pub struct LagParameter {
    pub pitch_index: u32,
    pub pitch_int: usize,
    pub pitch_fr: u8,
}

// The entry of the largest correlation above 0.0 among all but the first and the last four.
fn whole_entry(r_12p8: &[f32]) -> usize
    requires { 9 ≤ length r_12p8.now }
    ensures entry { result ≡ whole_entry r_12p8.now }
    ensures range { (4 ≤ result) × (result + 4 < length r_12p8.now) }
{
    let mut max_correlation_val = 0.0;
    let mut entry = 4;
    for (n, &value) in r_12p8[4..r_12p8.len() - 4].iter().enumerate() {
        if value > max_correlation_val {
            max_correlation_val = value;
            entry = n + 4;
        }
    }
    entry
}

// The correlations interpolated at d quarters past an entry. Correlations are a frame's and the table is the set's, so they
// come apart.
fn interpolate(r_12p8: &[f32], entry: usize, d: i32, interpolation: &[f32; 31]) -> f32
    requires { (4 ≤ entry) × (entry + 4 < length r_12p8.now) × (entry ≤ 404) × (mag d ≤ 3) }
    ensures { result ≡ interpolated r_12p8.now entry d interpolation.now 9 }
{
    let mut interpolated = 0.0;
    for m in -4i32..=4 {
        let n = table_offset(m, d);
        interpolated = with_tap(interpolated, r_12p8, moved(entry, m), interpolation, 15, n);
    }
    interpolated
}

// Whether a fraction is looked at beside this whole lag: all below 127, but none below 0 at 32;
// halves up to 156, and none above.
#[tactic(auto, unfolding(crate::specs::LagParameter::looked_at), using(crate::proofs::Signs::even_bits))]
fn is_looked_at(pitch_int: usize, d: i32) -> bool
    ensures { result ≡ looked_at pitch_int d }
{
    if pitch_int == 32 {
        return 0 <= d;
    }
    if pitch_int < 127 {
        return true;
    }
    if pitch_int <= 156 {
        return d % 2 == 0;
    }
    false
}

// The fraction at which the interpolated correlation is largest and above 0.0, and else 0.
fn fraction(r_12p8: &[f32], entry: usize, pitch_int: usize, interpolation: &[f32; 31]) -> i32
    requires { (4 ≤ entry) × (entry + 4 < length r_12p8.now) × (entry ≤ 404) }
    ensures fraction { result ≡ fraction_of r_12p8.now entry pitch_int interpolation.now }
    ensures range { mag result ≤ 3 }
{
    let mut pitch_fr = 0i32;
    let mut interp_d_max = 0.0;
    for d in -3i32..=3 {
        if is_looked_at(pitch_int, d) {
            let interp_d = interpolate(r_12p8, entry, d, interpolation);
            if interp_d > interp_d_max {
                interp_d_max = interp_d;
                pitch_fr = d;
            }
        }
    }
    pitch_fr
}

// A lag with its index. That it is at most 228 is a clause: it comes in as a plain number, and is no lag yet.
fn coded(pitch_int: usize, pitch_fr: u8) -> LagParameter
    requires { pitch_int ≤ 228 }
    ensures { result ≡ coded pitch_int pitch_fr }
{
    let pitch_index = lag_index(pitch_int as u16, pitch_fr);
    LagParameter {
        pitch_index,
        pitch_int,
        pitch_fr,
    }
}

// A lag whose negative fraction has been carried into the whole lag.
fn carried(pitch_int: usize, pitch_fr: i32) -> LagParameter
    requires { (1 ≤ pitch_int) × (pitch_int ≤ 228) × (mag pitch_fr ≤ 3) }
    ensures { result ≡ carried pitch_int pitch_fr }
{
    if pitch_fr < 0 {
        return coded(pitch_int - 1, (pitch_fr + 4) as u8);
    }
    coded(pitch_int, pitch_fr as u8)
}

// The lag among correlations of lags `from`, `from` + 1, ..
fn lag_among(r_12p8: &[f32], from: usize, interpolation: &[f32; 31]) -> LagParameter
    requires { (9 ≤ length r_12p8.now) × (from + length r_12p8.now ≤ 233) }
    ensures { result ≡ lag_among r_12p8.now from interpolation.now }
{
    let entry = whole_entry(r_12p8);
    let pitch_int = entry + from;
    let pitch_fr = fraction(r_12p8, entry, pitch_int, interpolation);
    carried(pitch_int, pitch_fr)
}

// The lag at 12.8 kHz near twice the lag at 6.4 kHz. The correlations reach four lags past either
// end, for the interpolation.
pub(crate) fn pitch_lag_parameter(
    frame: Delayed<'_>,
    t_curr: usize,
    interpolation: &[f32; 31],
) -> LagParameter
    requires { (17 ≤ t_curr) × (t_curr ≤ 114) }
    ensures { result ≡ lag_parameter frame.entry.x.now frame.entry.start frame.entry.len12p8 t_curr interpolation.now }
{
    let Delayed { x, start, len12p8 } = frame;
    let low = (2 * t_curr - 4).max(32);
    let high = (2 * t_curr + 4).min(228);
    let from = low - 4;
    // room for the longest list of lags: nothing here asks for memory
    let mut r_12p8_buf = [0.0f32; 17];
    let r_12p8 = &mut r_12p8_buf[..high + 4 - from + 1];
    correlate(x, start, len12p8, from, r_12p8);
    lag_among(r_12p8, from, interpolation)
}
