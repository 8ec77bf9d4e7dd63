// One frame, and the mark of a lost one.
ghost use Rattle.std.specs.Prelude.{◌≡◌};
ghost use Rattle.judging.specs.Judge.{judged};
ghost use Rattle.on_ring.specs.Registers.{fit_ring};
ghost use Rattle.decoder.specs.Frame.{framed, lost_from};
ghost use Rattle.decoder.specs.InPlace.{framed_in_place, lost_in_place};

use crate::carry::carry_out;
use crate::state::Decoder;
use coefficients::CoefficientSet;
use control::next::unsettle;
use judging::judge::judge;
use judging::plan::{Plan, SideInfo};
use on_ring::registers::{Registers, fit_ring};
use rates::answer::{Answer, Refusal};

// What a call gives back: its answer, the settled report and the state. No Result, since a refused call hands the state
// back too.
#[derive(Clone, Copy)]
pub struct Framed {
    pub answer: Answer,
    pub settled: bool,
    pub decoder: Decoder,
}

// What a call on lent arrays gives back beside them: its answer, and the registers, which hold the settled report. These
// come back from a refused call too.
#[derive(Clone, Copy)]
pub struct FramedInPlace {
    pub answer: Answer,
    pub registers: Registers,
}

// The verdict on a frame, which begins with whether the registers are fit.
#[tactic(auto, unfolding(judging::specs::Judge::judged))]
fn verdict(
    registers: Registers,
    set: CoefficientSet,
    side: SideInfo,
    samples: &[f32],
) -> Result<Plan, Refusal>
    ensures { result ≡ judged registers.marks (fit_ring registers) set.entry.numerators.now set.entry.denominators.now side samples.now }
{
    let config = fit_ring(registers)?;
    judge(registers.marks, config, set, side, samples)
}

// Decodes one frame of a decoder whose coefficients and rings are lent, which spares copying them: filters its samples
// in place, with the lent rows of the decoder's rate, as the side information says. Everything that can
// refuse it is tested first, and nothing is read before what comes before it is tested. The arrays, and the slices of the
// set, are parameters of their own, as a C caller lends them.
#[tactic(auto, unfolding(crate::specs::Frame::framed))]
pub fn frame_in_place(
    registers: Registers,
    kept: &mut [f32; 24],
    x_hat_mem: &mut [f32; 1080],
    x_hat_ltpf_mem: &mut [f32; 1080],
    numerators: &[f32],
    denominators: &[f32],
    side: SideInfo,
    samples: &mut [f32],
) -> FramedInPlace
    ensures { (result, kept.new, x_hat_mem.new, x_hat_ltpf_mem.new, samples.new) ≡ framed_in_place registers kept.old x_hat_mem.old x_hat_ltpf_mem.old numerators.now denominators.now side samples.old }
{
    let set = CoefficientSet {
        numerators,
        denominators,
    };
    match verdict(registers, set, side, samples) {
        Err(refusal) => FramedInPlace {
            answer: Err(refusal),
            registers,
        },
        Ok(plan) => FramedInPlace {
            answer: Ok(()),
            registers: carry_out(
                registers,
                plan,
                kept,
                x_hat_mem,
                x_hat_ltpf_mem,
                set,
                samples,
            ),
        },
    }
}

// Decodes one frame of a decoder that is handed over and handed back.
#[tactic(auto, unfolding(crate::specs::Frame::framed))]
pub fn frame(
    mut decoder: Decoder,
    numerators: &[f32],
    denominators: &[f32],
    side: SideInfo,
    samples: &mut [f32],
) -> Framed
    ensures { (result, samples.new) ≡ framed decoder numerators.now denominators.now side samples.old }
{
    let framed = frame_in_place(
        decoder.registers,
        &mut decoder.kept,
        &mut decoder.x_hat_mem,
        &mut decoder.x_hat_ltpf_mem,
        numerators,
        denominators,
        side,
        samples,
    );
    Framed {
        answer: framed.answer,
        settled: framed.registers.marks.settled,
        decoder: Decoder {
            registers: framed.registers,
            ..decoder
        },
    }
}

// Marks a frame as lost in a decoder whose arrays are elsewhere: they are not needed.
#[tactic(auto, unfolding(crate::specs::Frame::lost_from))]
pub fn lost_in_place(registers: Registers) -> FramedInPlace
    ensures { result ≡ lost_in_place registers }
{
    match fit_ring(registers) {
        Err(refusal) => FramedInPlace {
            answer: Err(refusal),
            registers,
        },
        Ok(_) => FramedInPlace {
            answer: Ok(()),
            registers: Registers {
                marks: unsettle(registers.marks),
                ..registers
            },
        },
    }
}

// Marks a frame as lost in a decoder that is handed over and handed back.
#[tactic(auto, unfolding(crate::specs::Frame::lost_from))]
pub fn lost(decoder: Decoder) -> Framed
    ensures { result ≡ lost_from decoder }
{
    let marked = lost_in_place(decoder.registers);
    Framed {
        answer: marked.answer,
        settled: marked.registers.marks.settled,
        decoder: Decoder {
            registers: marked.registers,
            ..decoder
        },
    }
}
