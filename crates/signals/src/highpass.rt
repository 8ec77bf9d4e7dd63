// The high-pass at 50 Hz over the new samples at 12.8 kHz.
ghost use Rattle.std.specs.Prelude.{◌≡◌, ◌≤◌};
ghost use Rattle.lanes.specs.Sums.{window};
ghost use Rattle.signals.specs.HighPass.{memories, high_passed};

// The two memories, which travel together from frame to frame.
#[derive(Clone, Copy)]
pub struct HighPass {
    pub h50_minus1: f32,
    pub h50_minus2: f32,
}

// Filters the len12p8 new samples of x in place, and gives the memories back.
pub(crate) fn high_pass(h: HighPass, x: &mut [f32; 404], len12p8: usize) -> HighPass
    requires { len12p8 ≤ 128 }
    ensures after { result ≡ memories h (window x.old 276) len12p8 }
    ensures signal { x.new ≡ high_passed h x.old len12p8 }
{
    let HighPass {
        mut h50_minus1,
        mut h50_minus2,
    } = h;
    // by index: what is written through a borrowed entry no proof would know
    for n in 0..len12p8 {
        let h50 = x[276 + n] - -1.9652933726226904 * h50_minus1 - 0.9658854605688177 * h50_minus2;
        x[276 + n] = 0.9827947082978771 * h50
            + -1.965589416595754 * h50_minus1
            + 0.9827947082978771 * h50_minus2;
        h50_minus2 = h50_minus1;
        h50_minus1 = h50;
    }
    HighPass {
        h50_minus1,
        h50_minus2,
    }
}
