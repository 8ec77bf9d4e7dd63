// The five-tap halving: the signal at 6.4 kHz.
ghost use Rattle.std.specs.Prelude.{◌≡◌, ◌+◌, ◌*◌, ◌≤◌, ◌<◌};
ghost use Rattle.slices.specs.Written.{written};
ghost use Rattle.signals.specs.Halving.{five_taps, halved};

// One sample at 6.4 kHz, of five at 12.8 kHz from first on.
fn five_taps(x: &[f32; 404], first: usize) -> f32
    requires { first + 4 < 404 }
    ensures { result ≡ five_taps x.now first }
{
    0.1236796411180537 * x[first]
        + 0.2353512128364889 * x[first + 1]
        + 0.2819382920909148 * x[first + 2]
        + 0.2353512128364889 * x[first + 3]
        + 0.1236796411180537 * x[first + 4]
}

// Writes the frame's len6p4 samples at 6.4 kHz after the 114 of history in out.
pub(crate) fn halve(x: &[f32; 404], start: usize, out: &mut [f32; 178], len6p4: usize)
    requires le_start { (3 ≤ start) × (start + 2 * len6p4 ≤ 404) }
    requires len6p4_bound { len6p4 ≤ 64 }
    ensures { out.new ≡ written out.old 114 (halved x.now start) len6p4 }
{
    // by index: a turn reads five entries and writes another
    for m in 0..len6p4 {
        out[114 + m] = five_taps(x, start - 3 + 2 * m);
    }
}
