// A frame filtered between the rings that hold its past: its inputs stand in one of them, its outputs go into the other.
ghost use Rattle.std.specs.Prelude.{◌≡◌, ◌+◌, length};
ghost use Rattle.filter.specs.Kept.{kept_as};
ghost use Rattle.rings.specs.OnLines.{FilterableOn, filtered_on};
ghost use Rattle.rings.specs.Samples.{filtered_block};
ghost use Rattle.rings.specs.Required.{Filterable};

use crate::ring::{recent, straighten};
use filter::kept::Spans;
use filter::transition::{Case, filter_frame};
use rates::config::Lc3Config;
use slices::put;

// In what follows x is the line of inputs, which lies in their ring where it can: x[-16..-1] past inputs, as far back as
// a numerator reads and some more, x[0..nf-1] this frame.

// Filters on the line x and a line of outputs, which it fills: y[-history..-1] all past outputs, y[0..nf-1] this frame.
fn filter_on(
    case: Case,
    config: Lc3Config,
    start: usize,
    x: &[f32],
    x_hat_ltpf_mem: &mut [f32],
    y: &mut [f32],
)
    requires { FilterableOn case.transition (kept_as case.old) (kept_as case.new) config start x.now x_hat_ltpf_mem.old × (length y.old ≡ config.history + config.nf) }
    ensures { x_hat_ltpf_mem.new ≡ filtered_on case.entry.transition (kept_as case.entry.old) (kept_as case.entry.new) config start x.now x_hat_ltpf_mem.old }
{
    let history = config.history;
    let fade = config.fs.fade;
    straighten(x_hat_ltpf_mem, history, start, &x[16..], y);
    filter_frame(case, x, y, Spans { history, fade });
    put(x_hat_ltpf_mem, start, &y[history..]);
}

// Filters on the line x and a cleared line of outputs. To clear the long one would cost the low rates a third of a
// frame's time, so they have a shorter one.
fn filter_lines(case: Case, config: Lc3Config, start: usize, x: &[f32], x_hat_ltpf_mem: &mut [f32])
    requires { FilterableOn case.transition (kept_as case.old) (kept_as case.new) config start x.now x_hat_ltpf_mem.old }
    ensures { x_hat_ltpf_mem.new ≡ filtered_on case.entry.transition (kept_as case.entry.old) (kept_as case.entry.new) config start x.now x_hat_ltpf_mem.old }
{
    let y_len = config.history + config.nf;
    if y_len <= 480 {
        let mut y = [0.0; 480];
        filter_on(case, config, start, x, x_hat_ltpf_mem, &mut y[..y_len]);
        return;
    }
    let mut y = [0.0; 1440];
    filter_on(case, config, start, x, x_hat_ltpf_mem, &mut y[..y_len]);
}

// Filters the frame that stands in the ring of inputs at the block start, after the pasts that the rings hold, and
// stores its outputs at the same place of theirs. The line x is lent from the ring of inputs; only at the ring's front
// it is put together.
pub fn filter_block(
    case: Case,
    config: Lc3Config,
    start: usize,
    x_hat_mem: &[f32],
    x_hat_ltpf_mem: &mut [f32],
)
    requires { Filterable case.transition (kept_as case.old) (kept_as case.new) config start x_hat_mem.now x_hat_ltpf_mem.old }
    ensures { x_hat_ltpf_mem.new ≡ filtered_block case.entry.transition (kept_as case.entry.old) (kept_as case.entry.new) config start x_hat_mem.now x_hat_ltpf_mem.old }
{
    let nf = config.nf;
    if start == 0 {
        let mut x = [0.0; 496];
        recent(x_hat_mem, config.history, nf, &mut x);
        filter_lines(case, config, start, &x[..16 + nf], x_hat_ltpf_mem);
        return;
    }
    let x = &x_hat_mem[start - 16..start + nf];
    filter_lines(case, config, start, x, x_hat_ltpf_mem);
}
