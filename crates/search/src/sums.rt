// The sum that every correlation and every energy is: products of two windows of one signal. Sums of
// neighbouring windows are made side by side.
ghost use Rattle.std.specs.Prelude.{◌≡◌, ◌+◌, ◌≤◌, length};
ghost use Rattle.lanes.specs.Sums.{product_sum, window};
ghost use Rattle.search.specs.Blocks.{eight};

// The products of the samples from `a` on with those from `b` on, summed in their order from 0.0.
pub(crate) fn sum_of_products(x: &[f32], a: usize, b: usize, len: usize) -> f32
    requires { (a + len ≤ length x.now) × (b + len ≤ length x.now) }
    ensures { result ≡ product_sum (window x.now a) (window x.now b) len }
{
    let mut sum = 0.0;
    for (p, q) in x[a..a + len].iter().zip(&x[b..b + len]) {
        sum += p * q;
    }
    sum
}

// Sums the products of the window at `a` with each window from `b` on: eight entries of r from i
// on, eight from j on and eight from k on.
pub(crate) fn put_sums(
    x: &[f32],
    a: usize,
    b: usize,
    len: usize,
    r: &mut [f32],
    i: usize,
    j: usize,
    k: usize,
)
    requires len_in_bounds { (a + len ≤ length x.now) × (b + length r.old ≤ length x.now) × (b + length r.old + len ≤ length x.now + 1) }
    requires i_in_bounds { (i + 8 ≤ length r.old) × (j + 8 ≤ length r.old) × (k + 8 ≤ length r.old) }
    ensures { r.new ≡ eight (λ n. product_sum (window x.now a) (window x.now (b + n)) len) k (eight (λ n. product_sum (window x.now a) (window x.now (b + n)) len) j (eight (λ n. product_sum (window x.now a) (window x.now (b + n)) len) i r.old)) }
{
    let s = lanes::correlate_three(&x[a..a + len], x, b + i, b + j, b + k);
    lanes::store(r, i, s.first);
    lanes::store(r, j, s.second);
    lanes::store(r, k, s.third);
}
