// A frame whose verdict is a plan: its samples taken up into a ring, filtered, and handed back.
ghost use Rattle.std.specs.Prelude.{◌≡◌, length};
ghost use Rattle.on_ring.specs.Required.{Judged};
ghost use Rattle.decoder.specs.Frame.{accepted};
ghost use Rattle.decoder.specs.InPlace.{joined, accepted_apart};

use coefficients::CoefficientSet;
use filter::transition::Transition;
use judging::plan::Plan;
use on_ring::planned::filter_planned;
use on_ring::registers::{Registers, move_on};
use slices::put;

// Carries a plan out on lent arrays and samples. The first case leaves the samples as they are.
pub(crate) fn carry_out(
    registers: Registers,
    plan: Plan,
    kept: &mut [f32; 24],
    x_hat_mem: &mut [f32],
    x_hat_ltpf_mem: &mut [f32],
    set: CoefficientSet,
    samples: &mut [f32],
) -> Registers
    requires { Judged registers set.numerators.now set.denominators.now samples.old plan × (length x_hat_mem.old ≡ 1080) × (length x_hat_ltpf_mem.old ≡ 1080) }
    ensures { (result, kept.new, x_hat_mem.new, x_hat_ltpf_mem.new, samples.new) ≡ accepted_apart (accepted (joined registers kept.old x_hat_mem.old x_hat_ltpf_mem.old) plan set.entry.numerators.now set.entry.denominators.now samples.old) }
{
    let start = registers.block_start_index;
    put(x_hat_mem, start, samples);
    filter_planned(
        registers.marks.lag.whole,
        start,
        plan,
        kept,
        x_hat_mem,
        x_hat_ltpf_mem,
        set,
    );
    let next = move_on(registers, plan);
    if let Transition::Inactive = plan.transition {
        return next;
    }
    put(samples, 0, &x_hat_ltpf_mem[start..start + samples.len()]);
    next
}
