// The coefficients of a frame's filter, from the lent set, the gain and the quarter of the lag.
#![tactic(auto)]

ghost use Rattle.std.specs.Prelude.{◌≡◌, ◌*◌, ◌≤◌, map, ◌++◌, length, drop};
ghost use Rattle.floats.specs.Single.{◌⊗◌};
ghost use Rattle.lag.specs.declared.rescale.Lag.{Lag};
ghost use Rattle.coefficients.specs.Coefficients.{gain_value, gain_row, row_of_set, filter_of, new_filter, laid_out};
ghost use Rattle.coefficients.specs.Required.{Lent};

use lag::gain::Gain;

// A set of coefficients as it is lent: rows of numerators, and rows of denominators.
#[derive(Clone, Copy)]
pub struct CoefficientSet<'a> {
    pub numerators: &'a [f32],
    pub denominators: &'a [f32],
}

// The row times a gain, put at the front of the coefficients.
fn scale_row(c: &mut [f32], gain: f32, row: &[f32])
    requires { length row.now ≤ length c.old }
    ensures { c.new ≡ map (λ e. gain ⊗ e) row.now ++ drop (length row.now) c.old }
{
    for (k, entry) in row.iter().enumerate() {
        c[k] = gain * entry;
    }
}

// Row r of a set of four, which have so many entries each.
fn row_of_set(set: &[f32], entries: usize, r: usize) -> &[f32]
    requires { (r ≤ 3) × (length set.now ≡ 4 * entries) }
    ensures { result.now ≡ row_of_set entries r set.now }
{
    &set[r * entries..][..entries]
}

// The gain, 0.0 where it is off.
fn gain_value(gain: Option<Gain>) -> f32
    ensures { result ≡ gain_value gain }
{
    gain.map_or(0.0, |on| on.gain)
}

// The row of numerators, 0 where the gain is off.
fn gain_row(gain: Option<Gain>) -> usize
    ensures { result ≡ gain_row gain }
{
    gain.map_or(0, |on| on.row)
}

// The coefficients of an active frame: a row for the gain, and one for the quarter. That there is such a row is a clause, and
// not the gain's own: what is told of a plan (`told_of`) is promised of any gain.
fn active_filter(l_den: usize, gain: Option<Gain>, quarter: usize, set: CoefficientSet) -> [f32; 24]
    requires { Lent l_den set.numerators.now set.denominators.now × (gain_row gain ≤ 3) × (quarter ≤ 3) }
    ensures { (lag : Lag) → lag.quarter ≡ quarter → result ≡ laid_out (filter_of l_den gain lag set.entry.numerators.now set.entry.denominators.now) }
{
    let value = gain_value(gain);
    let mut c = [0.0; 24];
    let num = row_of_set(set.numerators, l_den - 1, gain_row(gain));
    scale_row(&mut c[..11], 0.85 * value, num);
    let den = row_of_set(set.denominators, l_den + 1, quarter);
    scale_row(&mut c[11..], value, den);
    c
}

// The coefficients of a frame's filter, by whether it is active, and by its gain and its lag, of which
// only the quarter is read: 11 of the numerator, then 13 of the denominator. Of these l_den − 1 and
// l_den + 1 are used and the others are 0.0. An inactive frame has no filter: all are 0.0.
#[tactic(auto, unfolding(crate::specs::Coefficients::new_filter))]
pub fn compute_filter_coeffs(
    l_den: usize,
    active: bool,
    gain: Option<Gain>,
    quarter: usize,
    set: CoefficientSet,
) -> [f32; 24]
    requires { Lent l_den set.numerators.now set.denominators.now × (gain_row gain ≤ 3) × (quarter ≤ 3) }
    ensures { (lag : Lag) → lag.quarter ≡ quarter → result ≡ laid_out (new_filter l_den active gain lag set.entry.numerators.now set.entry.denominators.now) }
{
    if active {
        return active_filter(l_den, gain, quarter, set);
    }
    [0.0; 24]
}
