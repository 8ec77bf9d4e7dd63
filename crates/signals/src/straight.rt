// A frame's samples after the history of its straight signal.
ghost use Rattle.std.specs.Prelude.{◌≡◌, length};
ghost use Rattle.slices.specs.Written.{written};
ghost use Rattle.signals.specs.Straight.{sampled};

// Writes a frame's samples, each as a float, after the 60 of history in out. Samples past its end are
// dropped.
pub(crate) fn take_in(frame: &[i16], out: &mut [f32; 540])
    ensures { out.new ≡ written out.old 60 (sampled frame.now) (length frame.now) }
{
    let fits = &frame[..frame.len().min(480)];
    for (i, &sample) in fits.iter().enumerate() {
        out[60 + i] = sample as f32;
    }
}
