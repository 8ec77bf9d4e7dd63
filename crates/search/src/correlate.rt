// The correlations of a frame with what lies some lags before it, 24 sums side by side.
ghost use Rattle.std.specs.Prelude.{◌≡◌, ◌+◌, ◌≤◌, length};
ghost use Rattle.search.specs.Correlate.{correlated, lags_inside, correlated_into};

use crate::sums::put_sums;

// Whether a frame and all its lags lie within `long` samples, and the lags are 8 to 17, from 1 on.
#[tactic(auto, unfolding(crate::specs::Correlate::lags_inside))]
fn lags_inside(long: usize, start: usize, len: usize, from: usize, count: usize) -> bool
    ensures { result ≡ lags_inside long start len from count }
{
    8 <= count
        && count <= 17
        && start <= long
        && len <= long - start
        && 1 <= from
        && from <= start
        && count - 1 <= start - from
}

// Correlates where all lags lie within x.
fn correlate_inside(x: &[f32], start: usize, len: usize, from: usize, r: &mut [f32])
    requires len_in_bounds { (start + len ≤ length x.now) × (1 ≤ from) × (from + length r.old ≤ start + 1) }
    requires in_bounds { (8 ≤ length r.old) × (length r.old ≤ 17) }
    ensures { r.new ≡ correlated x.now start len from (length r.old) }
{
    let count = r.len();
    let last = count - 8;
    let first = start + 1 - (from + count);
    put_sums(x, start, first, len, r, 0, last / 2, last);
    r.reverse();
}

// The correlations of the len samples from start on with what lies `from` samples before them, and more
// by one at each entry of r. Where a lag leads out of x, or r has not 8 to 17 entries, nothing is written. x is read and r
// written: the two are no one thing.
pub fn correlate(x: &[f32], start: usize, len: usize, from: usize, r: &mut [f32])
    ensures { r.new ≡ correlated_into r.old x.now start len from }
{
    if !lags_inside(x.len(), start, len, from, r.len()) {
        return;
    }
    correlate_inside(x, start, len, from, r);
}
