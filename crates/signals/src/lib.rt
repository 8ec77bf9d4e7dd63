// The signals of a frame at its rate, at 12.8 kHz and at 6.4 kHz, each made in an array of zeros:
// x[0..59] past inputs, x[60..] the frame; y[0..275] past samples at 12.8 kHz, y[276..] the frame's; and
// at 6.4 kHz z[0..113] and z[114..].
#![tactic(auto)]

mod halving;
pub mod highpass;
mod straight;

ghost use Rattle.std.specs.Prelude.{◌≡◌, length};
ghost use Rattle.rates.specs.Lengths.{lengths_of};
ghost use Rattle.slices.specs.Written.{written};
ghost use Rattle.lanes.specs.Sums.{window};
ghost use Rattle.signals.specs.Straight.{sampled};
ghost use Rattle.signals.specs.Halving.{halved};
ghost use Rattle.signals.specs.Signals.{made12p8, left12p8};

use crate::halving::halve;
use crate::highpass::{HighPass, high_pass};
use crate::straight::take_in;
use rates::duration::FrameDuration;
use rates::lengths::lengths_of;
use resampling::resample;

// Makes the signal at the frame's rate: the past, and the frame after it. Samples past the 480th are
// dropped.
pub fn at_rate(past: &[f32; 60], frame: &[i16], x: &mut [f32; 540])
    ensures { x.new ≡ written (written x.old 0 (window past.now 0) 60) 60 (sampled frame.now) (length frame.now) }
{
    slices::put(&mut x[..], 0, past);
    take_in(frame, x);
}

// Makes the signal at 12.8 kHz: the past, and after it the frame, resampled from x and high-passed. It
// gives the high-pass's memories back. Where the set or the step is not usable, only the past is there.
pub fn at_12p8(
    past: &[f32; 276],
    h50: HighPass,
    x: &[f32; 540],
    filter: &[f32],
    p: usize,
    n_ms: FrameDuration,
    y: &mut [f32; 404],
) -> HighPass
    ensures after { result ≡ left12p8 h50 (written y.old 0 (window past.now 0) 276) x.now filter.now p (lengths_of n_ms).len12p8 }
    ensures signal { y.new ≡ made12p8 h50 (written y.old 0 (window past.now 0) 276) x.now filter.now p (lengths_of n_ms).len12p8 }
{
    slices::put(&mut y[..], 0, past);
    if !resample(x, p, filter, n_ms, y) {
        return h50;
    }
    let l = lengths_of(n_ms);
    high_pass(h50, y, l.len12p8)
}

// Makes the signal at 6.4 kHz: the past, and after it the frame, halved from the delayed frame of x.
pub fn at_6p4(past: &[f32; 114], x: &[f32; 404], n_ms: FrameDuration, y: &mut [f32; 178])
    ensures { y.new ≡ written (written y.old 0 (window past.now 0) 114) 114 (halved x.now (lengths_of n_ms).start) (lengths_of n_ms).len6p4 }
{
    slices::put(&mut y[..], 0, past);
    let l = lengths_of(n_ms);
    halve(x, l.start, y, l.len6p4);
}
