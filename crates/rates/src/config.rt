// What a rate and a duration fix together: the samples of a frame and of the decoder's history.
ghost use Rattle.std.specs.Prelude.{◌≡◌};
ghost use Rattle.rates.specs.Configs.{config_of};

use crate::answer::Refusal;
use crate::duration::{FrameDuration, duration_of};
use crate::table::{Rate, row_of};

#[derive(Clone, Copy)]
pub struct Lc3Config {
    pub fs: Rate,
    pub n_ms: FrameDuration,
    pub nf: usize,
    pub history: usize,
}

// The configuration of a rate in Hz and a duration in microseconds, checked in this order.
pub fn config(hz: u32, microseconds: u32) -> Result<Lc3Config, Refusal>
    ensures { result ≡ config_of hz microseconds }
{
    let fs = row_of(hz).ok_or(Refusal::UnknownRate)?;
    let n_ms = duration_of(microseconds).ok_or(Refusal::UnknownDuration)?;
    let (nf, history) = match n_ms {
        FrameDuration::TenMs => (fs.nf_10, 2 * fs.nf_10),
        FrameDuration::SevenPointFiveMs => (fs.nf_7p5, 3 * fs.nf_7p5),
    };
    Ok(Lc3Config {
        fs,
        n_ms,
        nf,
        history,
    })
}
