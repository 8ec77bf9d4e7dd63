// The gain that the bits of a frame allow.
ghost use Rattle.std.specs.Prelude.{◌≡◌};
ghost use Rattle.lag.specs.Gain.{bits_of, gain_of, may_activate};

use rates::duration::FrameDuration;
use rates::table::Rate;

// A gain that is on, with the row of the numerators that goes with it.
#[derive(Clone, Copy)]
pub struct Gain {
    pub gain: f32,
    pub row: usize,
}

// The bits of a frame, scaled to one of 10 ms.
#[tactic(auto, unfolding(crate::specs::Gain::bits_of))]
fn t_nbits(n_ms: FrameDuration, nbits: u32) -> u64
    ensures { result ≡ bits_of n_ms nbits }
{
    match n_ms {
        FrameDuration::TenMs => nbits as u64,
        FrameDuration::SevenPointFiveMs => (4 * nbits as u64 + 1) / 3,
    }
}

// The gain of a frame, or none where it is off.
pub fn compute_gains_params(fs: Rate, n_ms: FrameDuration, nbits: u32) -> Option<Gain>
    ensures { result ≡ gain_of fs.fs_ind (bits_of n_ms nbits) }
{
    let t = t_nbits(n_ms, nbits);
    let b = 80 * fs.fs_ind as u64;
    if t < 320 + b {
        return Some(Gain { gain: 0.4, row: 0 });
    }
    if t < 400 + b {
        return Some(Gain { gain: 0.35, row: 1 });
    }
    if t < 480 + b {
        return Some(Gain { gain: 0.3, row: 2 });
    }
    if t < 560 + b {
        return Some(Gain { gain: 0.25, row: 3 });
    }
    None
}

// Whether the encoder may activate the filter: where the gain is not off.
pub fn gain_ltpf_on(fs: Rate, n_ms: FrameDuration, nbits: u32) -> bool
    ensures { result ≡ may_activate fs.fs_ind (bits_of n_ms nbits) }
{
    t_nbits(n_ms, nbits) < 560 + 80 * fs.fs_ind as u64
}
