// The refusals of the encoder's calls, each test by itself and in the order of the answers: the state,
// the set, the count of samples, the bits. A test that comes after a refusal reads nothing.
#![tactic(auto)]

ghost use Rattle.std.specs.Prelude.{◌≡◌};
ghost use Rattle.encoder_refusals.specs.Refusals.{fit_of, counted, finite_set, set_judged, count_judged, bits_judged};

use floats::all_finite;
use rates::answer::{Reason, Refusal};
use rates::config::{Lc3Config, config};

// The three slices of a set, which travel together.
#[derive(Clone, Copy)]
pub struct EncoderSet<'a> {
    pub resampling: &'a [f32],
    pub correlation: &'a [f32],
    pub signal: &'a [f32],
}

// Check 9: the configuration of a state that names a rate in Hz, a duration in microseconds and a
// previous lag. Where it is unfit it has none.
pub fn fit_config(rate: u32, duration: u32, t_prev: usize) -> Result<Lc3Config, Refusal>
    ensures { result ≡ fit_of rate duration t_prev }
{
    let c = config(rate, duration).map_err(|_| Refusal::UnfitState)?;
    if t_prev < 17 || t_prev > 114 {
        return Err(Refusal::UnfitState);
    }
    Ok(c)
}

impl EncoderSet<'_> {
    // Whether the slices have their lengths.
    #[tactic(auto, unfolding(crate::specs::Refusals::counted))]
    fn is_counted(self) -> bool
        ensures { result ≡ counted self.entry.resampling.now self.entry.correlation.now self.entry.signal.now }
    {
        self.resampling.len() == 239 && self.correlation.len() == 31 && self.signal.len() == 15
    }

    // Whether every entry is a number.
    #[tactic(auto, unfolding(crate::specs::Refusals::finite_set))]
    fn is_finite(self) -> bool
        ensures { result ≡ finite_set self.entry.resampling.now self.entry.correlation.now self.entry.signal.now }
    {
        all_finite(self.resampling) && all_finite(self.correlation) && all_finite(self.signal)
    }
}

// Checks 3 and 4, of the set lent to a fit state.
pub fn judge_set<R: Reason>(fit: Result<Lc3Config, R>, set: EncoderSet<'_>) -> Result<Lc3Config, R>
    ensures { result ≡ set_judged R.of fit set.entry.resampling.now set.entry.correlation.now set.entry.signal.now }
{
    let Ok(c) = fit else {
        return Err(R::refused(Refusal::UnfitState));
    };
    if !set.is_counted() {
        return Err(R::refused(Refusal::CoefficientCount));
    }
    if !set.is_finite() {
        return Err(R::refused(Refusal::CoefficientNotFinite));
    }
    Ok(c)
}

// Check 5, where nothing was refused before: the count of samples.
pub fn judge_count<R: Reason>(judged: Result<Lc3Config, R>, count: usize) -> Result<Lc3Config, R>
    ensures { result ≡ count_judged R.of judged count }
{
    let c = judged?;
    if count != c.nf {
        return Err(R::refused(Refusal::SampleCount));
    }
    Ok(c)
}

// Check 6, where nothing was refused before: the frame's bits.
pub fn judge_bits<R: Reason>(judged: Result<Lc3Config, R>, nbits: u32) -> Result<Lc3Config, R>
    ensures { result ≡ bits_judged R.of judged nbits }
{
    let c = judged?;
    if nbits > 3200 {
        return Err(R::refused(Refusal::TooManyBits));
    }
    Ok(c)
}
