// What a frame is going to do, for a decoder with these registers.
ghost use Rattle.std.specs.Prelude.{◌≡◌, ◌≤◌};
ghost use Rattle.coefficients.specs.Coefficients.{gain_row};
ghost use Rattle.c_telling.specs.Required.{Narrow};
ghost use Rattle.c_telling.specs.Tellings.{row_told, told_refused, told_done, told_for};

use judging::plan::SideInfo;
use lag::gain::Gain;
use on_ring::registers::{Registers, fit_ring};
use rates::answer::{Answer, Refusal};
use telling::told::{Told, case_number, judge_fitted, told_of};

// The gain's row as C has it: a flag and a number, which is 0 where the filter has none.
#[derive(Clone, Copy)]
pub struct RowForC {
    pub on: bool,
    pub row: u32,
}

// What a frame tells, as C has it: numbers beside the answer. Zeros where it is refused; no lag and no row where it is not
// active.
#[derive(Clone, Copy)]
pub struct ToldForC {
    pub answer: Answer,
    pub transition: u32,
    pub active: bool,
    pub whole: u32,
    pub quarter: u32,
    pub rounding: i32,
    pub gain: RowForC,
}

// The row of a gain, where the frame is active and the gain is not off.
fn row_told(active: bool, gain: Option<Gain>) -> RowForC
    requires { gain_row gain ≤ 3 }
    ensures { result ≡ row_told active gain }
{
    match gain {
        Some(gain) if active => RowForC {
            on: true,
            row: gain.row as u32,
        },
        _ => RowForC { on: false, row: 0 },
    }
}

// A refused frame.
fn told_refused(refusal: Refusal) -> ToldForC
    ensures { result ≡ told_refused refusal }
{
    ToldForC {
        answer: Err(refusal),
        transition: 0,
        active: false,
        whole: 0,
        quarter: 0,
        rounding: 0,
        gain: RowForC { on: false, row: 0 },
    }
}

// An accepted frame. Its rounding is 0 where there is none.
fn told_done(told: Told) -> ToldForC
    requires { Narrow told.lag × (gain_row told.gain ≤ 3) }
    ensures { result ≡ told_done told }
{
    ToldForC {
        answer: Ok(()),
        transition: case_number(told.transition),
        active: told.active,
        whole: told.lag.whole as u32,
        quarter: told.lag.quarter as u32,
        rounding: told.rounding.unwrap_or(0),
        gain: row_told(told.active, told.gain),
    }
}

// What a frame with this side information is going to do.
#[tactic(auto, unfolding(crate::specs::Tellings::told_for))]
pub fn tell(registers: Registers, side: SideInfo) -> ToldForC
    ensures { result ≡ told_for registers side }
{
    match judge_fitted(registers.marks, fit_ring(registers), side) {
        Ok(plan) => told_done(told_of(plan, side.pitch)),
        Err(refusal) => told_refused(refusal),
    }
}
