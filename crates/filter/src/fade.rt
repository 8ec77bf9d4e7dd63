// Runs of outputs, faded and unfaded, in blocks of eight. A filter reads no output nearer than 18
// samples back, so eight can be made side by side. Where eight does not divide their number, the last
// block begins inside the one before it and makes some outputs again, with the same bits.
ghost use Rattle.std.specs.Prelude.{◌≡◌, ◌+◌, ◌-◌, ◌*◌, ◌≤◌, ◌<◌, min, length};
ghost use Rattle.filter.specs.Kept.{kept_as};
ghost use Rattle.filter.specs.Required.{Inside};
ghost use Rattle.filter.specs.Fade.{factor, grown};
ghost use Rattle.filter.specs.Blocks.{weighed, weighed_in, next_in, Within, padded};

use crate::block::{filter_8, less_8};
use crate::kept::{KeptFilter, Spans};
use lanes::{Lanes, store};

// A filter fades in by n / fade, and out by one less that.
#[derive(Clone, Copy)]
pub enum Direction {
    In,
    Out,
}

// The factor of a fade at its sample n.
#[tactic(auto, unfolding(crate::specs::Fade::factor))]
fn fade_factor(direction: Direction, n: u16, fade: u16) -> f32
    ensures { result ≡ factor direction fade n }
{
    let f = n as f32 / fade as f32;
    match direction {
        Direction::In => f,
        Direction::Out => 1.0 - f,
    }
}

// Eight values, each times its factor: the first is at sample n of the fade.
fn weigh_8(direction: Direction, n: u16, fade: u16, s: Lanes) -> Lanes
    requires { n + 8 ≤ fade }
    ensures { result ≡ weighed direction fade n s }
{
    Lanes {
        s0: s.s0 * fade_factor(direction, n, fade),
        s1: s.s1 * fade_factor(direction, n + 1, fade),
        s2: s.s2 * fade_factor(direction, n + 2, fade),
        s3: s.s3 * fade_factor(direction, n + 3, fade),
        s4: s.s4 * fade_factor(direction, n + 4, fade),
        s5: s.s5 * fade_factor(direction, n + 5, fade),
        s6: s.s6 * fade_factor(direction, n + 6, fade),
        s7: s.s7 * fade_factor(direction, n + 7, fade),
    }
}

// Eight values, weighted by the factors of a fade or not at all: the first is at sample n of the frame.
fn weigh_in(fading: Option<Direction>, n: usize, fade: u16, s: Lanes) -> Lanes
    requires { Within fading fade (n + 8) }
    ensures { result ≡ weighed_in fading fade n s }
{
    match fading {
        None => s,
        Some(direction) => weigh_8(direction, n as u16, fade, s),
    }
}

// Where block b of so many outputs begins. The last block ends with them.
fn block_start(b: usize, len: usize) -> usize
    requires { (8 * b ≤ len) × (8 ≤ len) }
    ensures { result ≡ min (8 * b) (len - 8) }
{
    (8 * b).min(len - 8)
}

// Makes `len` outputs of a frame by a filter, from output `from` on, which fade or not. The lines are x[-16..-1] past
// inputs, x[0..nf-1] this frame; y[-history..-1] past outputs, y[0..nf-1] this frame. Output n reads no output after
// n − back.
pub(crate) fn filter_run(
    fading: Option<Direction>,
    filter: KeptFilter,
    x: &[f32],
    y: &mut [f32],
    spans: Spans,
    from: usize,
    len: usize,
)
    requires { Inside (kept_as filter) spans.history × Within fading spans.fade (from + len) × (spans.fade < 65536) × (8 ≤ len) × (16 + from + len ≤ length x.now) × (spans.history + from + len ≤ length y.old) }
    ensures { y.new ≡ grown (next_in fading spans.history spans.fade (kept_as filter.entry) (padded (spans.history - 16) x.now)) y.old (spans.history + from) len }
{
    let history = spans.history;
    let fade = spans.fade as u16;
    let num = filter.num();
    let den = filter.den();
    let back = filter.nearest();
    // By their number, since the last block may begin inside the one before it.
    for b in 0..len.div_ceil(8) {
        let n = from + block_start(b, len);
        let i = 16 + n;
        let at = history + n;
        let filt_out = filter_8(num, den, x, i, y, at - back);
        let out = less_8(x, i, weigh_in(fading, n, fade, filt_out));
        store(y, at, out);
    }
}
