// Where a block fits into a slice, and its copy there.
#![tactic(auto)]

ghost use Rattle.std.specs.Prelude.{◌≡◌, ◌+◌, ◌≤◌, leb, length};
ghost use Rattle.slices.specs.Slices.{stored, placed};

// Whether a slice has n entries from `at` on. No sum is made that could wrap.
pub fn fits<T>(s: &[T], at: usize, n: usize) -> bool
    ensures { result ≡ leb (at + n) (length s.now) }
{
    n <= s.len() && at <= s.len() - n
}

// Copies a block that fits. By index: the library's copy calls memmove, which the archive for C would need from outside.
fn copy<T: Copy>(into: &mut [T], at: usize, block: &[T])
    requires { at + length block.now ≤ length into.old }
    ensures { into.new ≡ stored into.old at block.now }
{
    for i in 0..block.len() {
        into[at + i] = block[i];
    }
}

// Copies a block into a slice, from `at` on. Where it does not fit, nothing is copied.
#[tactic(auto, unfolding(crate::specs::Slices::placed))]
pub fn put<T: Copy>(into: &mut [T], at: usize, block: &[T])
    ensures { into.new ≡ placed into.old at block.now }
{
    if fits(into, at, block.len()) {
        copy(into, at, block);
    }
}
