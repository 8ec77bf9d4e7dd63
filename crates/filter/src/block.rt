// Eight outputs side by side.
ghost use Rattle.std.specs.Prelude.{◌≡◌, ◌+◌, ◌≤◌, length};
ghost use Rattle.filter.specs.Blocks.{sums, less};

use lanes::{Added, Lanes, Taken, fir, starting_at};

// The filter's two sums for eight samples: x from i on, and y from j on.
#[tactic(auto, unfolding(crate::specs::Blocks::sums))]
pub(crate) fn filter_8(num: &[f32], den: &[f32], x: &[f32], i: usize, y: &[f32], j: usize) -> Lanes
    ensures { result ≡ sums num.now den.now x.now i y.now j }
{
    let sum = fir::<Added>(starting_at(0.0), num, x, i);
    fir::<Taken>(sum, den, y, j)
}

// Eight samples of x from i on, less these.
pub(crate) fn less_8(x: &[f32], i: usize, s: Lanes) -> Lanes
    requires { i + 8 ≤ length x.now }
    ensures { result ≡ less x.now i s }
{
    Lanes {
        s0: x[i] - s.s0,
        s1: x[i + 1] - s.s1,
        s2: x[i + 2] - s.s2,
        s3: x[i + 3] - s.s3,
        s4: x[i + 4] - s.s4,
        s5: x[i + 5] - s.s5,
        s6: x[i + 6] - s.s6,
        s7: x[i + 7] - s.s7,
    }
}
