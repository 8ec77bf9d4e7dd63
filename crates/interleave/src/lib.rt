// One buffer with the samples of both ears, left and right in turn: taken apart, put together, and tested.
#![tactic(auto)]

ghost use Rattle.std.specs.Prelude.{◌≡◌, ◌+◌, ◌*◌, ◌≤◌, length, take, drop};
ghost use Rattle.floats.specs.Single.{all_in_range};
ghost use Rattle.slices.specs.Slices.{stored};
ghost use Rattle.interleave.specs.Turns.{every_second, lefts, rights, in_turn};

use floats::{all_in_range, in_range};

// Copies the samples of both ears into two arrays, each from its place on. One pass takes both, which costs no more
// than to copy each by itself. What is asked of the buffer is a clause, as the buffer is a caller's slice. By index,
// since it writes two slices at once, each from a place of its own.
pub fn deinterleave(
    samples: &[f32],
    nf: usize,
    left: &mut [f32],
    left_at: usize,
    right: &mut [f32],
    right_at: usize,
)
    requires { (length samples.now ≡ 2 * nf) × (left_at + nf ≤ length left.old) × (right_at + nf ≤ length right.old) }
    ensures { (left.new ≡ stored left.old left_at (lefts samples.now)) × (right.new ≡ stored right.old right_at (rights samples.now)) }
{
    for i in 0..nf {
        left[left_at + i] = samples[2 * i];
        right[right_at + i] = samples[2 * i + 1];
    }
}

// Copies them back: by index too, two slices into one.
pub fn interleave(
    samples: &mut [f32],
    nf: usize,
    left: &[f32],
    left_at: usize,
    right: &[f32],
    right_at: usize,
)
    requires { (length samples.old ≡ 2 * nf) × (left_at + nf ≤ length left.now) × (right_at + nf ≤ length right.now) }
    ensures { samples.new ≡ in_turn (take nf (drop left_at left.now)) (take nf (drop right_at right.now)) }
{
    for i in 0..nf {
        samples[2 * i] = left[left_at + i];
        samples[2 * i + 1] = right[right_at + i];
    }
}

// Whether every second sample is in range, from the one at `from` on: by index, with a step of 2.
fn every_second_in_range(samples: &[f32], from: usize) -> bool
    requires { from ≤ 1 }
    ensures { result ≡ all_in_range (every_second (drop from samples.now)) }
{
    let mut all = true;
    for i in (from..samples.len()).step_by(2) {
        all = all & in_range(samples[i]);
    }
    all
}

// Whether the samples of each ear are in range.
#[derive(Clone, Copy)]
pub struct EarsInRange {
    pub left: bool,
    pub right: bool,
}

// Looks at the whole buffer first, as at the samples of one ear. Only where some sample is out of range are the ears
// told apart.
pub fn ears_in_range(samples: &[f32]) -> EarsInRange
    ensures { (result.left ≡ all_in_range (lefts samples.now)) × (result.right ≡ all_in_range (rights samples.now)) }
{
    if all_in_range(samples) {
        return EarsInRange {
            left: true,
            right: true,
        };
    }
    EarsInRange {
        left: every_second_in_range(samples, 0),
        right: every_second_in_range(samples, 1),
    }
}
