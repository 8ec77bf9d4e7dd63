// The frame call: a frame of samples in, its pitch record, its bits and the next state out.
ghost use Rattle.std.specs.Prelude.{◌≡◌, ◌≤◌};
ghost use Rattle.rates.specs.Lengths.{lengths_of};
ghost use Rattle.encoder.specs.Judge.{judged};
ghost use Rattle.encoder.specs.Frame.{refused_frame, done_frame, next_state, encoded, framed};

use crate::history::last;
use crate::state::Encoder;
use encoder_refusals::{EncoderSet, fit_config, judge_bits, judge_count, judge_set};
use found::activation::Memory;
use found::{Found, found_in};
use lag::pitch::PitchRecord;
use rates::answer::{Answer, Refusal};
use rates::config::Lc3Config;
use rates::lengths::lengths_of;
use search::pitch::pitch_detection;
use signals::highpass::HighPass;
use signals::{at_6p4, at_12p8, at_rate};

// What a call gives back. No Result, since a refused call gives absent with 0 bits, and hands the state back too.
#[derive(Clone, Copy)]
pub struct Framed {
    pub answer: Answer,
    pub pitch: PitchRecord,
    pub nbits_ltpf: u32,
    pub encoder: Encoder,
}

// A refused frame: the same state, absent with 0 bits.
fn refused(encoder: Encoder, answer: Answer) -> Framed
    ensures { result ≡ refused_frame encoder answer }
{
    Framed {
        answer,
        pitch: PitchRecord::Absent,
        nbits_ltpf: 0,
        encoder,
    }
}

// A frame that is done: what was found in it, and the state after it.
fn done(found: Found, encoder: Encoder) -> Framed
    ensures { result ≡ done_frame found encoder }
{
    Framed {
        answer: Ok(()),
        pitch: found.pitch,
        nbits_ltpf: found.nbits_ltpf,
        encoder,
    }
}

// The state after a frame: each history holds the last entries of its signal.
fn next(
    e: Encoder,
    h50: HighPass,
    at_rate: &[f32; 540],
    at_12p8: &[f32; 404],
    at_6p4: &[f32; 178],
    c: Lc3Config,
    t_curr: usize,
    memory: Memory,
) -> Encoder
    requires { c.nf ≤ 480 }
    ensures { result ≡ next_state e (record { x_s = at_rate.now; x_12p8 = at_12p8.now; x_6p4 = at_6p4.now; h50 = h50 }) c.nf (lengths_of c.n_ms) t_curr memory }
{
    let l = lengths_of(c.n_ms);
    Encoder {
        t_prev: t_curr,
        memory,
        h50,
        x_s: last(at_rate, c.nf),
        x_12p8: last(at_12p8, l.len12p8),
        x_6p4: last(at_6p4, l.len6p4),
        ..e
    }
}

// The configuration by which a frame is encoded, or the first refusal.
#[tactic(auto, unfolding(crate::specs::Judge::judged))]
fn judge(e: &Encoder, set: EncoderSet<'_>, frame: &[i16], nbits: u32) -> Result<Lc3Config, Refusal>
    ensures { result ≡ judged e.now set.entry.resampling.now set.entry.correlation.now set.entry.signal.now frame.now nbits }
{
    let fit = fit_config(e.rate, e.duration, e.t_prev);
    judge_bits(judge_count(judge_set(fit, set), frame.len()), nbits)
}

// Encodes a frame that was judged, with its configuration c.
fn encode(
    e: Encoder,
    c: Lc3Config,
    set: EncoderSet<'_>,
    frame: &[i16],
    nbits: u32,
    near_nyquist: bool,
) -> Framed
    requires { judged e set.resampling.now set.correlation.now set.signal.now frame.now nbits ≡ Ok c }
    ensures { result ≡ encoded e c set.entry.resampling.now set.entry.correlation.now set.entry.signal.now frame.now nbits near_nyquist }
{
    let EncoderSet {
        resampling,
        correlation,
        signal,
    } = set;
    let n_ms = c.n_ms;
    let mut x_s = [0.0; 540];
    let mut x_12p8 = [0.0; 404];
    let mut x_6p4 = [0.0; 178];
    at_rate(&e.x_s, frame, &mut x_s);
    let h50 = at_12p8(
        &e.x_12p8,
        e.h50,
        &x_s,
        resampling,
        c.fs.p,
        n_ms,
        &mut x_12p8,
    );
    at_6p4(&e.x_6p4, &x_12p8, n_ms, &mut x_6p4);
    let detected = pitch_detection(&x_6p4, n_ms, e.t_prev);
    let found = found_in(
        c,
        &x_12p8,
        detected,
        e.memory,
        correlation,
        signal,
        nbits,
        near_nyquist,
    );
    let t_curr = detected.t_curr;
    let encoder = next(e, h50, &x_s, &x_12p8, &x_6p4, c, t_curr, found.memory);
    done(found, encoder)
}

impl Encoder {
    // Takes a frame of samples in: nbits are the frame's bits, and the flag says that its spectrum
    // reaches near the Nyquist frequency.
    pub fn frame(
        self,
        resampling: &[f32],
        correlation_interpolation: &[f32],
        signal_interpolation: &[f32],
        x_s: &[i16],
        nbits: u32,
        near_nyquist_flag: bool,
    ) -> Framed
        ensures { result ≡ framed self resampling.now correlation_interpolation.now signal_interpolation.now x_s.now nbits near_nyquist_flag }
    {
        let set = EncoderSet {
            resampling,
            correlation: correlation_interpolation,
            signal: signal_interpolation,
        };
        match judge(&self, set, x_s, nbits) {
            Err(refusal) => refused(self, Err(refusal)),
            Ok(c) => encode(self, c, set, x_s, nbits, near_nyquist_flag),
        }
    }
}
