// The resampler: the frame's samples at 12.8 kHz. Eight outputs further on the taps' entries of the
// set are the same again, and the samples lie 120/p further on, so the sums of sixteen outputs that
// lie eight apart are made side by side.
#![tactic(auto)]

ghost use Rattle.std.specs.Prelude.{◌≡◌, ◌+◌, ◌*◌, ◌/◌, ◌≤◌, ◌<◌, ◌&&◌, leb, eqb};
ghost use Rattle.floats.specs.Single.{at};
ghost use Rattle.slices.specs.Written.{written};
ghost use Rattle.rates.specs.Lengths.{lengths_of};
ghost use Rattle.resampling.specs.Resample.{scale, resampled, usable, resampled_into};
ghost use Rattle.resampling.specs.Rows.{Spread, tap_lanes, Phases};

use lanes::Lanes;
use rates::duration::FrameDuration;
use rates::lengths::lengths_of;

// A set has 239 entries.
type Set = [f32; 239];

// A step of the table: from 4 to 24, and a divisor of 120.
#[derive(Clone, Copy)]
struct Step {
    p: usize,
    ghost least: { 4 ≤ p },
    ghost most: { p ≤ 24 },
    ghost divides: { p * (120 / p) ≡ 120 },
}

// The sums of outputs n, n + 8, .., n + 120.
#[derive(Clone, Copy)]
struct Sixteen {
    low: Lanes,
    high: Lanes,
}

// Writes a row: sixteen samples of x that lie `step` apart. By index, like the loops below: what is read and what
// is written lie at places of their own.
fn put_row(x: &[f32; 540], from: usize, step: usize, rows: &mut [f32; 1392], to: usize)
    requires { (from + 15 * step < 540) × (step ≤ 30) × (to + 16 ≤ 1392) }
    ensures { rows.new ≡ written rows.old to (λ b. at x.now (from + step * b)) 16 }
{
    for b in 0..16usize {
        rows[to + b] = x[from + step * b];
    }
}

// Row s starts with the sample that tap s of output 0 reads.
fn spread(x: &[f32; 540], step: Step, rows: &mut [f32; 1392])
    ensures { Spread x.now step.p rows.new }
{
    let Step { p } = step;
    let first = 60 - 240 / p;
    for s in 0..240 / p + 105 / p + 1 {
        put_row(x, first + s, 120 / p, rows, 16 * s);
    }
}

// The sums of outputs n, n + 8, .., n + 120, for n below 8.
fn sum_taps(rows: &[f32], step: Step, filter: &Set, n: usize) -> Sixteen
    requires { n < 8 }
    ensures { (result.low ≡ tap_lanes rows.now filter.now step.p n 0 (240 / step.p + 1)) × (result.high ≡ tap_lanes rows.now filter.now step.p n 8 (240 / step.p + 1)) }
{
    let Step { p } = step;
    let first = 15 * n / p;
    let m = 15 * n % p;
    let mut low = lanes::starting_at(0.0);
    let mut high = lanes::starting_at(0.0);
    for j in 0..240 / p + 1 {
        let h = p * j;
        if m < h && h < 240 + m {
            let row = 16 * (first + j);
            let entry = filter[h - m - 1];
            low = lanes::add_row(low, entry, rows, row);
            high = lanes::add_row(high, entry, rows, row + 8);
        }
    }
    Sixteen { low, high }
}

// The sums of all outputs: entry 16n + b is that of output n + 8b.
fn sums_of(rows: &[f32], step: Step, filter: &Set) -> [f32; 128]
    ensures { Phases rows.now filter.now step.p 8 result }
{
    let mut sums = [0.0; 128];
    for n in 0..8usize {
        let s = sum_taps(rows, step, filter, n);
        lanes::store(&mut sums, 16 * n, s.low);
        lanes::store(&mut sums, 16 * n + 8, s.high);
    }
    sums
}

// What every sum is multiplied by: p, or 12.0 at 8000 Hz.
fn scale_of(step: Step) -> f32
    ensures { result ≡ scale step.p }
{
    let Step { p } = step;
    if p == 24 { 12.0 } else { p as u8 as f32 }
}

// Writes the frame's len12p8 samples at 12.8 kHz after the 276 of history in out. By index: a turn reads
// one array and writes another, at places that are not the loop's own.
fn write_outputs(x: &[f32; 540], step: Step, filter: &Set, out: &mut [f32; 404], len12p8: usize)
    requires { len12p8 ≤ 128 }
    ensures { out.new ≡ written out.old 276 (resampled x.now filter.now step.p) len12p8 }
{
    let mut rows = [0.0; 1392];
    spread(x, step, &mut rows);
    let sums = sums_of(&rows, step, filter);
    let scale = scale_of(step);
    for n in 0..len12p8 {
        out[276 + n] = sums[n % 8 * 16 + n / 8] * scale;
    }
}

// Whether p is a step of the table.
fn is_step(p: usize) -> bool
    ensures { result ≡ (leb 4 p && leb p 24 && eqb (p * (120 / p)) 120) }
{
    4 <= p && p <= 24 && p * (120 / p) == 120
}

// Writes the frame's samples at 12.8 kHz after the 276 of history in out, and answers whether the set and
// the step are usable. Where they are not, nothing is written.
pub fn resample(
    x: &[f32; 540],
    p: usize,
    filter: &[f32],
    n_ms: FrameDuration,
    out: &mut [f32; 404],
) -> bool
    ensures done { result ≡ usable filter.now p }
    ensures signal { out.new ≡ resampled_into out.old x.now filter.now p (lengths_of n_ms).len12p8 }
{
    let Ok(filter) = <&Set>::try_from(filter) else {
        return false;
    };
    if !is_step(p) {
        return false;
    }
    let step = Step { p };
    let l = lengths_of(n_ms);
    write_outputs(x, step, filter, out, l.len12p8);
    true
}
