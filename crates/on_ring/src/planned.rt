// A frame filtered between the rings, as its plan says.
ghost use Rattle.std.specs.Prelude.{◌≡◌};
ghost use Rattle.rings.specs.Samples.{filtered_block};
ghost use Rattle.coefficients.specs.Coefficients.{read_out, laid_out};
ghost use Rattle.judging.specs.Filters.{filter_for};
ghost use Rattle.on_ring.specs.Required.{Filtering};

use coefficients::{CoefficientSet, compute_filter_coeffs};
use filter::kept::KeptFilter;
use filter::transition::{Case, Transition};
use judging::plan::Plan;
use rings::samples::filter_block;
use slices::put;

// Cases 2 to 5: the frame's filter is made, used beside the previous one, and kept in its place.
fn filter_active(
    old_lag: usize,
    start: usize,
    plan: Plan,
    kept: &mut [f32; 24],
    x_hat_mem: &[f32],
    x_hat_ltpf_mem: &mut [f32],
    set: CoefficientSet,
)
    requires { Filtering old_lag start plan kept.old x_hat_mem.now x_hat_ltpf_mem.old set.numerators.now set.denominators.now }
    ensures { (kept.new ≡ laid_out (filter_for plan set.entry.numerators.now set.entry.denominators.now)) × (x_hat_ltpf_mem.new ≡ filtered_block plan.transition (read_out plan.config.fs.l_den old_lag kept.old) (filter_for plan set.entry.numerators.now set.entry.denominators.now) plan.config start x_hat_mem.now x_hat_ltpf_mem.old) }
{
    let config = plan.config;
    let lag = plan.lag;
    let l_den = config.fs.l_den;
    let new = compute_filter_coeffs(l_den, plan.active, plan.gain, lag.quarter, set);
    let case = Case {
        transition: plan.transition,
        old: KeptFilter {
            l_den,
            lag: old_lag,
            coefficients: kept,
        },
        new: KeptFilter {
            l_den,
            lag: lag.whole,
            coefficients: &new,
        },
    };
    filter_block(case, config, start, x_hat_mem, x_hat_ltpf_mem);
    *kept = new;
}

// Filters the frame that stands in the ring of inputs at the block start; its outputs go to the same place of the other
// ring, and its filter is kept. The first case copies the frame and keeps no filter, before anything else is looked at.
// The arrays of a decoder stand apart here and above: a C caller lends them so, and of inputs and outputs only the outputs
// change.
pub fn filter_planned(
    old_lag: usize,
    start: usize,
    plan: Plan,
    kept: &mut [f32; 24],
    x_hat_mem: &[f32],
    x_hat_ltpf_mem: &mut [f32],
    set: CoefficientSet,
)
    requires { Filtering old_lag start plan kept.old x_hat_mem.now x_hat_ltpf_mem.old set.numerators.now set.denominators.now }
    ensures { (kept.new ≡ laid_out (filter_for plan set.entry.numerators.now set.entry.denominators.now)) × (x_hat_ltpf_mem.new ≡ filtered_block plan.transition (read_out plan.config.fs.l_den old_lag kept.old) (filter_for plan set.entry.numerators.now set.entry.denominators.now) plan.config start x_hat_mem.now x_hat_ltpf_mem.old) }
{
    if let Transition::Inactive = plan.transition {
        put(
            x_hat_ltpf_mem,
            start,
            &x_hat_mem[start..start + plan.config.nf],
        );
        *kept = [0.0; 24];
        return;
    }
    filter_active(old_lag, start, plan, kept, x_hat_mem, x_hat_ltpf_mem, set);
}
