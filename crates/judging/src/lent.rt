// The tests that a frame makes of the lent coefficient set.
ghost use Rattle.std.specs.Prelude.{◌≡◌, ◌+◌, ◌*◌, ◌≤◌, eqb, length};
ghost use Rattle.judging.specs.Judge.{set_counts, set_finite};

use coefficients::CoefficientSet;
use floats::all_finite;

// Whether a slice has four rows of `entries` less `shorter` entries each. By division, so that no product can
// wrap.
fn has_rows(set: &[f32], shorter: usize, entries: usize) -> bool
    requires { shorter ≤ 1 }
    ensures { result ≡ eqb (length set.now + 4 * shorter) (4 * entries) }
{
    set.len() % 4 == 0 && set.len() / 4 + shorter == entries
}

// Whether each slice has its four rows.
pub(crate) fn set_counts(l_den: usize, set: CoefficientSet) -> bool
    ensures { result ≡ set_counts l_den set.entry.numerators.now set.entry.denominators.now }
{
    has_rows(set.numerators, 1, l_den) && has_rows(set.denominators, 0, l_den + 1)
}

// Whether each entry, used or not, is a number.
pub(crate) fn set_finite(set: CoefficientSet) -> bool
    ensures { result ≡ set_finite set.entry.numerators.now set.entry.denominators.now }
{
    all_finite(set.numerators) && all_finite(set.denominators)
}
