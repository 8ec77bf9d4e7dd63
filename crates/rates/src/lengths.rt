// What a duration fixes at the encoder's inner rates, the same for every rate of the input.
ghost use Rattle.std.specs.Prelude.{◌≡◌};
ghost use Rattle.rates.specs.Lengths.{lengths_of};

use crate::duration::FrameDuration;

// The frame's samples at 12.8 kHz and at 6.4 kHz, and where the delayed frame starts at 12.8 kHz.
#[derive(Clone, Copy)]
pub struct Lengths {
    pub len12p8: usize,
    pub len6p4: usize,
    pub start: usize,
}

// The lengths at a duration.
pub fn lengths_of(n_ms: FrameDuration) -> Lengths
    ensures { result ≡ lengths_of n_ms }
{
    match n_ms {
        FrameDuration::TenMs => Lengths {
            len12p8: 128,
            len6p4: 64,
            start: 252,
        },
        FrameDuration::SevenPointFiveMs => Lengths {
            len12p8: 96,
            len6p4: 48,
            start: 232,
        },
    }
}
