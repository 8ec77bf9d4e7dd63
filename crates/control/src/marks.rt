// What a decoder remembers as a few numbers.
ghost use Rattle.std.specs.Prelude.{◌≡◌};
ghost use Rattle.control.specs.State.{cleared_marks};

use lag::rescale::Lag;

// The rate in Hz and the duration in microseconds as they were given; the run of inactive frames; whether the previous
// frame was active; whether the decoder has settled; and the previous frame's lag.
#[derive(Clone, Copy)]
pub struct Marks {
    pub rate: u32,
    pub duration: u32,
    pub run: u32,
    pub ltpf_active_prev: bool,
    pub settled: bool,
    pub lag: Lag,
}

// How many inactive frames in a row settle a decoder.
pub(crate) const SETTLED_LIMIT: u32 = 3;

// The marks of a start.
#[tactic(auto, unfolding(crate::specs::State::cleared_marks))]
pub fn clear(rate: u32, duration: u32) -> Marks
    ensures { result ≡ cleared_marks rate duration }
{
    let lag = Lag {
        whole: 0,
        quarter: 0,
    };
    Marks {
        rate,
        duration,
        run: 0,
        ltpf_active_prev: false,
        settled: false,
        lag,
    }
}
