// The five transitions from one frame to the next.
ghost use Rattle.std.specs.Prelude.{◌≡◌, ◌-◌, ◌≤◌, length, take};
ghost use Rattle.filter.specs.Blocks.{padded};
ghost use Rattle.filter.specs.Kept.{kept_as};
ghost use Rattle.filter.specs.Required.{Inside, Lines, Readable};
ghost use Rattle.filter.specs.Transition.{transition_of, outputs, case_activated, case_deactivated, case_pitch_kept, case_pitch_changed};

use crate::fade::{Direction, filter_run};
use crate::kept::{KeptFilter, Spans};
use lag::rescale::Lag;
use slices::put;

#[derive(Clone, Copy, PartialEq, Eq)]
pub enum Transition {
    // First case: inactive -> inactive
    Inactive,
    // Second case: inactive -> active
    Activated,
    // Third case: active -> inactive
    Deactivated,
    // Fourth case: active -> active with no pitch change
    ActiveNoPitchChange,
    // Fifth case: active -> active with pitch change
    ActivePitchChanged,
}

// The case of a frame, with the filter of the previous frame and that of this one.
#[derive(Clone, Copy)]
pub struct Case<'a> {
    pub transition: Transition,
    pub old: KeptFilter<'a>,
    pub new: KeptFilter<'a>,
}

// The case of a frame, by the previous frame, this one and their lags.
#[tactic(auto, unfolding(crate::specs::Transition::transition_of))]
pub fn transition_of(active_prev: bool, active: bool, lag_prev: Lag, lag: Lag) -> Transition
    ensures { result ≡ transition_of active_prev active lag_prev lag }
{
    match (active_prev, active) {
        (false, false) => Transition::Inactive,
        (false, true) => Transition::Activated,
        (true, false) => Transition::Deactivated,
        (true, true) if lag_prev == lag => Transition::ActiveNoPitchChange,
        (true, true) => Transition::ActivePitchChanged,
    }
}

// In what follows the lines are x[-16..-1] past inputs, x[0..nf-1] this frame; y[-history..-1] past outputs,
// y[0..nf-1] this frame's inputs, whose place its outputs take.

// Second case: the new filter fades in.
#[tactic(auto, using(crate::proofs::Cases::activated_line))]
fn activated(new: KeptFilter, x: &[f32], y: &mut [f32], spans: Spans)
    requires { Lines spans.fade spans.history x.now y.old × Inside (kept_as new) spans.history }
    ensures { y.new ≡ case_activated (kept_as new.entry) spans.fade (padded (spans.history - 16) x.now) (take spans.history y.old) }
{
    let fade = spans.fade;
    let rest = x.len() - 16 - fade;
    filter_run(Some(Direction::In), new, x, y, spans, 0, fade);
    filter_run(None, new, x, y, spans, fade, rest);
}

// Third case: the old filter fades out.
#[tactic(auto, using(crate::proofs::Cases::deactivated_line))]
fn deactivated(old: KeptFilter, x: &[f32], y: &mut [f32], spans: Spans)
    requires { Lines spans.fade spans.history x.now y.old × Inside (kept_as old) spans.history }
    ensures { y.new ≡ case_deactivated (kept_as old.entry) spans.fade (padded (spans.history - 16) x.now) (take spans.history y.old) }
{
    filter_run(Some(Direction::Out), old, x, y, spans, 0, spans.fade);
}

// Fourth case: the new filter throughout.
fn pitch_kept(new: KeptFilter, x: &[f32], y: &mut [f32], spans: Spans)
    requires { Lines spans.fade spans.history x.now y.old × Inside (kept_as new) spans.history }
    ensures { y.new ≡ case_pitch_kept (kept_as new.entry) (padded (spans.history - 16) x.now) (take spans.history y.old) }
{
    let all = x.len() - 16;
    filter_run(None, new, x, y, spans, 0, all);
}

// A copy of a line, at the front of a new one.
#[tactic(auto, using(slices::proofs::Stored::take_placed))]
fn set_aside(y: &[f32]) -> [f32; 136]
    requires { length y.now ≤ 136 }
    ensures { take (length y.now) result ≡ y.now }
{
    let mut z = [0.0; 136];
    put(&mut z, 0, y);
    z
}

// Fifth case: the old filter fades out and gives z, and over z the new one fades in. The numerators
// read z, which is set aside; y takes its place from the left, so the denominators read y.
fn pitch_changed(old: KeptFilter, new: KeptFilter, x: &[f32], y: &mut [f32], spans: Spans)
    requires { Lines spans.fade spans.history x.now y.old × Inside (kept_as old) spans.history × Inside (kept_as new) spans.history }
    ensures { y.new ≡ case_pitch_changed (kept_as old.entry) (kept_as new.entry) spans.fade (padded (spans.history - 16) x.now) (take spans.history y.old) }
{
    let Spans { history, fade } = spans;
    filter_run(Some(Direction::Out), old, x, y, spans, 0, fade);
    let z = set_aside(&y[history - 16..history + fade]);
    filter_run(Some(Direction::In), new, &z[..16 + fade], y, spans, 0, fade);
    let rest = x.len() - 16 - fade;
    filter_run(None, new, x, y, spans, fade, rest);
}

// The outputs of a frame, by its case. Clauses and no types ask for what the lines and the filters are: y holds the
// inputs only before the call, and a filter that the case does not use may be any. The case is matched, since each takes other
// filters.
#[tactic(auto, unfolding(crate::specs::Transition::outputs))]
pub fn filter_frame(case: Case, x: &[f32], y: &mut [f32], spans: Spans)
    requires { Lines spans.fade spans.history x.now y.old × Readable case.transition (kept_as case.old) (kept_as case.new) spans.history }
    ensures { y.new ≡ outputs case.entry.transition (kept_as case.entry.old) (kept_as case.entry.new) spans.fade (padded (spans.history - 16) x.now) (take spans.history y.old) }
{
    match case.transition {
        Transition::Inactive => {}
        Transition::Activated => activated(case.new, x, y, spans),
        Transition::Deactivated => deactivated(case.old, x, y, spans),
        Transition::ActiveNoPitchChange => pitch_kept(case.new, x, y, spans),
        Transition::ActivePitchChanged => pitch_changed(case.old, case.new, x, y, spans),
    }
}
