// Eight sums side by side. Each is added up in its own exact order, so no bit differs from a sum by
// itself; side by side, they become vector code.
#![tactic(auto)]

ghost use Rattle.std.specs.Prelude.{◌≡◌, ◌+◌, ◌≤◌, Float, length};
ghost use Rattle.floats.specs.Single.{◌⊕◌, ◌⊖◌};
ghost use Rattle.slices.specs.Slices.{placed};
ghost use Rattle.lanes.specs.Lanes.{all, listed, combined, plus, row_added, fir_inside, fir, holds, Summed, three_correlated};

use slices::{fits, put};

#[derive(Clone, Copy)]
pub struct Lanes {
    pub s0: f32,
    pub s1: f32,
    pub s2: f32,
    pub s3: f32,
    pub s4: f32,
    pub s5: f32,
    pub s6: f32,
    pub s7: f32,
}

// Eight sums that start at v.
pub fn starting_at(v: f32) -> Lanes
    ensures { result ≡ all v }
{
    Lanes {
        s0: v,
        s1: v,
        s2: v,
        s3: v,
        s4: v,
        s5: v,
        s6: v,
        s7: v,
    }
}

// The eight in a row.
#[tactic(auto, unfolding(crate::specs::Lanes::listed))]
fn listed(s: Lanes) -> [f32; 8]
    ensures { result ≡ listed s }
{
    [s.s0, s.s1, s.s2, s.s3, s.s4, s.s5, s.s6, s.s7]
}

// Writes eight sums into a slice, from `at` on. Where they do not fit, nothing is written. All were read
// and computed before, so that the stores can be one.
pub fn store(into: &mut [f32], at: usize, s: Lanes)
    ensures { into.new ≡ placed into.old at (listed s) }
{
    put(into, at, &listed(s));
}

// What a sum does with a product.
pub trait Sense {
    ghost of: { Float → Float → Float };

    fn apply(sum: f32, product: f32) -> f32
        ensures { result ≡ of sum product };
}

// It adds it.
pub struct Added;

impl Sense for Added {
    ghost of = { ◌⊕◌ };

    fn apply(sum: f32, product: f32) -> f32 {
        sum + product
    }
}

// It subtracts it.
pub struct Taken;

impl Sense for Taken {
    ghost of = { ◌⊖◌ };

    fn apply(sum: f32, product: f32) -> f32 {
        sum - product
    }
}

// Each sum with c times its sample added or subtracted; the first sum's sample is the one at i. That eight samples stand
// there is a clause: a value for it would be made anew, with the same proof, at each turn of a loop.
fn scaled<S: Sense>(s: Lanes, c: f32, x: &[f32], i: usize) -> Lanes
    requires { i + 8 ≤ length x.now }
    ensures { result ≡ combined S.of s c x.now i }
{
    Lanes {
        s0: S::apply(s.s0, c * x[i]),
        s1: S::apply(s.s1, c * x[i + 1]),
        s2: S::apply(s.s2, c * x[i + 2]),
        s3: S::apply(s.s3, c * x[i + 3]),
        s4: S::apply(s.s4, c * x[i + 4]),
        s5: S::apply(s.s5, c * x[i + 5]),
        s6: S::apply(s.s6, c * x[i + 6]),
        s7: S::apply(s.s7, c * x[i + 7]),
    }
}

// Each sum with c times its sample of a row added. Where x does not hold all eight, the sums are left as
// they are.
#[tactic(auto, unfolding(crate::specs::Lanes::row_added))]
pub fn add_row(s: Lanes, c: f32, x: &[f32], i: usize) -> Lanes
    ensures { result ≡ row_added s c x.now i }
{
    if fits(x, i, 8) {
        scaled::<Added>(s, c, x, i)
    } else {
        s
    }
}

// Whether x holds the samples from i − k to i + 7, for every place k of c.
fn fir_inside(c: &[f32], x: &[f32], i: usize) -> bool
    ensures { result ≡ fir_inside c.now x.now i }
{
    fits(x, i, 8) && c.len() <= i + 1
}

// Adds or subtracts c[k]·x[i − k] for rising k, and so for the seven samples after i. Where x does not
// hold all of them, the sums are left as they are. A turn takes two terms: a loop of one term each is
// made by the compiler into vectors of terms that are added up one by one, which is slow. The loop is by
// index, since x is read backwards while c is read forwards.
pub fn fir<S: Sense>(start: Lanes, c: &[f32], x: &[f32], i: usize) -> Lanes
    ensures { result ≡ fir S.of start c.now x.now i }
{
    if !fir_inside(c, x, i) {
        return start;
    }
    let mut s = start;
    let pairs = c.len() / 2;
    for j in 0..pairs {
        let k = 2 * j;
        let l = k + 1;
        let t = scaled::<S>(s, c[k], x, i - k);
        s = scaled::<S>(t, c[l], x, i - l);
    }
    let last = 2 * pairs;
    if last < c.len() {
        return scaled::<S>(s, c[last], x, i - last);
    }
    s
}

// Three times eight sums.
#[derive(Clone, Copy)]
pub struct Three {
    pub first: Lanes,
    pub second: Lanes,
    pub third: Lanes,
}

// Whether x holds all samples that eight sums of a's length read from i on.
fn holds(a: &[f32], x: &[f32], i: usize) -> bool
    ensures { result ≡ holds a.now x.now i }
{
    fits(x, i, 8) && a.len() <= x.len() - 7 - i
}

// Adds the products of a[n] to each of the three.
fn step(s: Three, c: f32, x: &[f32], i: usize, j: usize, k: usize) -> Three
    requires { (i + 8 ≤ length x.now) × (j + 8 ≤ length x.now) × (k + 8 ≤ length x.now) }
    ensures { result ≡ record { first = plus s.first c x.now i; second = plus s.second c x.now j; third = plus s.third c x.now k } }
{
    Three {
        first: scaled::<Added>(s.first, c, x, i),
        second: scaled::<Added>(s.second, c, x, j),
        third: scaled::<Added>(s.third, c, x, k),
    }
}

// The sums from 0.0 where x holds all samples. Two terms a turn: with one, the loop would become
// slower code that adds up each sum in a row.
fn three_sums(a: &[f32], x: &[f32], i: usize, j: usize, k: usize) -> Three
    requires i_in_bounds { (i + 8 ≤ length x.now) × (i + length a.now + 7 ≤ length x.now) }
    requires j_in_bounds { (j + 8 ≤ length x.now) × (j + length a.now + 7 ≤ length x.now) }
    requires k_in_bounds { (k + 8 ≤ length x.now) × (k + length a.now + 7 ≤ length x.now) }
    ensures { Summed a.now x.now i j k (length a.now) result }
{
    let zero = starting_at(0.0);
    let mut s = Three {
        first: zero,
        second: zero,
        third: zero,
    };
    let pairs = a.len() / 2;
    for m in 0..pairs {
        let n = 2 * m;
        let t = step(s, a[n], x, i + n, j + n, k + n);
        s = step(t, a[n + 1], x, i + n + 1, j + n + 1, k + n + 1);
    }
    let n = 2 * pairs;
    if n < a.len() {
        return step(s, a[n], x, i + n, j + n, k + n);
    }
    s
}

// The sums of a[n]·x[i + n] for rising n from 0.0, and so for the seven samples after i; and the
// same at j and at k. Where x does not hold all samples, all sums are 0.0.
#[tactic(auto, unfolding(crate::specs::Lanes::three_correlated))]
pub fn correlate_three(a: &[f32], x: &[f32], i: usize, j: usize, k: usize) -> Three
    ensures { result ≡ three_correlated a.now x.now i j k }
{
    let zero = starting_at(0.0);
    let zeros = Three {
        first: zero,
        second: zero,
        third: zero,
    };
    if holds(a, x, i) && holds(a, x, j) && holds(a, x, k) {
        three_sums(a, x, i, j, k)
    } else {
        zeros
    }
}
