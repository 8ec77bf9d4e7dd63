// The histories that a frame's signals leave: the last entries of each.
ghost use Rattle.std.specs.Prelude.{◌≡◌, ◌+◌, ◌≤◌, length};
ghost use Rattle.signals.specs.Straight.{laid};

// The N entries of x from start on.
pub(crate) fn last<const N: usize>(x: &[f32], start: usize) -> [f32; N]
    requires { start + N ≤ length x.now }
    ensures { result ≡ laid N x.now start N }
{
    let mut out = [0.0; N];
    slices::put(&mut out, 0, &x[start..start + N]);
    out
}
