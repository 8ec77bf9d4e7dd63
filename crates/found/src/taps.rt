// The taps of an interpolation: a table with four entries to a sample, read at a signed offset.
ghost use Rattle.std.specs.Prelude.{◌≡◌, suc, ◌+◌, ◌*◌, ◌≤◌, ◌<◌, T, pos, ◌+ℤ◌, length};
ghost use Rattle.std.specs.Int.Signed.{mag, non_neg};
ghost use Rattle.found.specs.Taps.{offset, inside, moved, plus};
ghost use Rattle.floats.specs.Single.{◌⊗◌, at};

// The offset of tap m for a fraction of d quarters. The bounds of both are clauses, here and where it is called: they are a
// loop's, and a value that kept them would be made anew at each turn.
pub(crate) fn table_offset(m: i32, d: i32) -> i32
    requires { (mag m ≤ 4) × (mag d ≤ 3) }
    ensures { result ≡ offset m d }
{
    4 * m - d
}

// Whether an offset lies strictly inside ±half.
pub(crate) fn strictly_inside(n: i32, half: i32) -> bool
    requires { mag half ≤ 16 }
    ensures { result ≡ inside half n }
{
    -half < n && n < half
}

// The entry that lies `by` past `at`, or before it where `by` is negative.
pub(crate) fn moved(at: usize, by: i32) -> usize
    requires { (at ≤ 404) × (mag by ≤ 404) × (T (non_neg (pos at +ℤ by))) }
    ensures { result ≡ moved at by }
{
    (at as i32 + by) as usize
}

// A sum with one more product, of x's entry i and the table's entry for the offset n, where the
// table has one. Its middle entry is that of offset 0.
pub(crate) fn with_tap(sum: f32, x: &[f32], i: usize, table: &[f32], middle: usize, n: i32) -> f32
    requires { (i < length x.now) × (length table.now ≡ 2 * middle + 1) × (middle ≤ 15) × (mag n ≤ 26) }
    ensures { result ≡ plus (inside (pos (suc middle)) n) sum (at x.now i ⊗ at table.now (moved middle n)) }
{
    if strictly_inside(n, middle as i32 + 1) {
        return sum + x[i] * table[moved(middle, n)];
    }
    sum
}
