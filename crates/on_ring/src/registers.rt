// The registers of a decoder on a ring, which of them are fit, and the registers after a frame.
ghost use Rattle.std.specs.Prelude.{◌≡◌, ◌+◌, ◌<◌, ◌≤◌};
ghost use Rattle.rings.specs.Ring.{next_block};
ghost use Rattle.on_ring.specs.Registers.{block_fits, ring_fits, fit_ring, moved_on};

use control::fitness::fits;
use control::marks::Marks;
use control::next::advance;
use judging::plan::Plan;
use rates::answer::Refusal;
use rates::config::{Lc3Config, config};

// The marks, and where the next block starts in both rings.
#[derive(Clone, Copy)]
pub struct Registers {
    pub marks: Marks,
    pub block_start_index: usize,
}

// Whether a block of the used history starts there.
#[tactic(auto, unfolding(crate::specs::Registers::block_fits))]
fn block_fits(config: Lc3Config, start: usize) -> bool
    requires { 0 < config.nf }
    ensures { result ≡ block_fits config start }
{
    start < config.history && start % config.nf == 0
}

// Whether registers fit the configuration that they name.
pub fn ring_fits(registers: Registers, config: Lc3Config) -> bool
    requires { 0 < config.nf }
    ensures { result ≡ ring_fits config registers }
{
    fits(registers.marks, config) && block_fits(config, registers.block_start_index)
}

// The configuration of fit registers. Unfit ones are refused. As `fit_config` of control, but for the test: a function of the
// test would be as long as the lines that it spares.
pub fn fit_ring(registers: Registers) -> Result<Lc3Config, Refusal>
    ensures { result ≡ fit_ring registers }
{
    let marks = registers.marks;
    let found = config(marks.rate, marks.duration).map_err(|_| Refusal::UnfitState)?;
    if ring_fits(registers, found) {
        Ok(found)
    } else {
        Err(Refusal::UnfitState)
    }
}

// Where the next block starts: after this one, or at the front again.
fn next_block(history: usize, nf: usize, start: usize) -> usize
    requires { start + nf ≤ 1440 }
    ensures { result ≡ next_block history nf start }
{
    let next = start + nf;
    if next == history { 0 } else { next }
}

// The registers after a frame.
pub fn move_on(registers: Registers, plan: Plan) -> Registers
    requires { registers.block_start_index + plan.config.nf ≤ 1440 }
    ensures { result ≡ moved_on registers plan }
{
    let config = plan.config;
    Registers {
        marks: advance(registers.marks, plan.active, plan.lag),
        block_start_index: next_block(config.history, config.nf, registers.block_start_index),
    }
}
