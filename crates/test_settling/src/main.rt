// How many inactive frames settle a decoder, by a run at 8000 Hz. Two decoders differ in the samples
// of their first active frame. Then both are given equal frames: active ones, some inactive ones, and
// one more active frame, whose outputs are compared.
#![tactic(auto)]

ghost use Rattle.std.specs.Prelude.{◌≤◌, length};

use arguments::options::is_to_run;
use decoder::frame::{Framed, frame};
use decoder::state::{Decoder, start};
use judging::plan::SideInfo;
use lag::pitch::{PitchRecord, Present};
use outcome::{Outcome, print};
use std::process::ExitCode;

// What two decoders are compared at: how many samples a frame has at a duration, and how many equal
// active frames come after the first.
#[derive(Clone, Copy)]
struct Case {
    duration: u32,
    nf: usize,
    active: usize,
    ghost fits: { nf ≤ 80 },
}

// One frame, with numerators of 0.0, denominators of 1.0 and the longest lag, 142 samples.
fn step(decoder: Decoder, active: bool, nf: usize, samples: &mut [f32]) -> Framed
    requires { nf ≤ length samples.old }
{
    let numerators = [0.0; 12];
    let denominators = [1.0; 20];
    let pitch = PitchRecord::Present(Present { index: 511, active });
    let side = SideInfo { pitch, nbits: 300 };
    frame(
        decoder,
        &numerators,
        &denominators,
        side,
        &mut samples[..nf],
    )
}

// The state after so many frames of samples 1.0.
fn stepped(decoder: Decoder, active: bool, nf: usize, count: usize) -> Decoder
    requires { nf ≤ 80 }
{
    let mut d = decoder;
    for _ in 0..count {
        let mut samples = [1.0; 80];
        let framed = step(d, active, nf, &mut samples);
        d = framed.decoder;
    }
    d
}

fn differing(a: &[f32; 80], b: &[f32; 80]) -> usize {
    a.iter().zip(b).filter(|(x, y)| **x != **y).count()
}

// Writes a line, and answers whether it could. It says whether both decoders say that they are settled.
fn report(
    rt: &HostRuntime,
    outcome: &mut Outcome,
    duration: u32,
    inactive: usize,
    settled: bool,
    differ: usize,
) -> bool {
    let said = if settled { "yes" } else { "no" };
    print(
        rt,
        outcome,
        format_args!(
            "{duration} us, inactive frames {inactive}: settled {said}, samples that differ {differ}\n"
        ),
    )
}

impl Case {
    // A decoder whose first frame, an active one, has the given samples; then active frames and so many
    // inactive ones.
    fn prepared(&self, first: f32, inactive: usize) -> Decoder {
        let started = start(8000, self.duration);
        let mut samples = [first; 80];
        let framed = step(started.decoder, true, self.nf, &mut samples);
        let d = stepped(framed.decoder, true, self.nf, self.active);
        stepped(d, false, self.nf, inactive)
    }

    // The outputs of an equal active frame after so many equal inactive ones.
    fn compare(&self, rt: &HostRuntime, outcome: &mut Outcome, inactive: usize) -> bool {
        let a = self.prepared(1.0, inactive);
        let b = self.prepared(2.0, inactive);
        let mut x = [1.0; 80];
        let mut y = [1.0; 80];
        step(a, true, self.nf, &mut x);
        step(b, true, self.nf, &mut y);
        let settled = a.registers.marks.settled && b.registers.marks.settled;
        let differ = differing(&x, &y);
        report(rt, outcome, self.duration, inactive, settled, differ)
    }
}

// Both durations, with one to four inactive frames, as far as they can be written.
fn compare_all(rt: &HostRuntime, outcome: &mut Outcome) -> bool {
    let cases = [
        Case {
            duration: 10000,
            nf: 80,
            active: 1,
        },
        Case {
            duration: 7500,
            nf: 60,
            active: 2,
        },
    ];
    for case in cases {
        for inactive in 1..5 {
            if !case.compare(rt, outcome, inactive) {
                return false;
            }
        }
    }
    true
}

fn main(rt: HostRuntime) -> ExitCode {
    let mut outcome = Outcome::new();
    if is_to_run(
        &rt,
        &mut outcome,
        b"usage: test_settling\n",
        b"shows how many inactive frames settle a decoder at 8000 Hz.\n",
        0,
    ) {
        compare_all(&rt, &mut outcome);
    }
    outcome.status()
}
