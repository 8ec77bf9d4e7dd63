// The pitch search: the lag at 6.4 kHz, and whether there is a pitch at all.
ghost use Rattle.std.specs.Prelude.{◌≡◌, ◌+◌, ◌≤◌, length};
ghost use Rattle.lanes.specs.Sums.{product_sum, window};
ghost use Rattle.search.specs.Lists.{list_of};
ghost use Rattle.search.specs.Pitch.{correlations, weighted, index_of_max, energy, root_at, over_root, lag1, lag2, with_presence, detected, lag_within};
ghost use Rattle.rates.specs.Lengths.{lengths_of};

use crate::sums::{put_sums, sum_of_products};
use rates::duration::FrameDuration;
use rates::lengths::lengths_of;

// The smallest lag at 6.4 kHz.
const K_MIN: usize = 17;

// The largest lag at 6.4 kHz, and the entry of the frame's first sample.
const K_MAX: usize = 114;

// The chosen lag and whether there is a pitch, with the lag's plain correlation and the root of the
// product of the two energies. The lag is chosen either way, and remembered, so it is no option.
#[derive(Clone, Copy)]
pub struct Detected {
    pub t_curr: usize,
    pub present: bool,
    pub correlation: f32,
    pub root: Option<f32>,
}

// A lag to choose from: its correlation, plain and normalised, and the root that it is divided by.
#[derive(Clone, Copy)]
struct Candidate {
    lag: usize,
    correlation: f32,
    root: Option<f32>,
    normcorr: f32,
}

// The signal at 6.4 kHz, entry 114 the frame's first sample, and the frame's length.
#[derive(Clone, Copy)]
struct Signal<'a> {
    x_6p4: &'a [f32; 178],
    len6p4: usize,
    ghost short: { len6p4 ≤ 64 },
}

impl Signal<'_> {
    // The sums over the frame's products with each window of its length that starts at entries 0 to 97.
    fn window_sums(self) -> [f32; 98]
        ensures { result ≡ list_of (λ i. product_sum (window self.entry.x_6p4.now 114) (window self.entry.x_6p4.now (0 + i)) self.entry.len6p4) 98 }
    {
        let Signal { x_6p4, len6p4 } = self;
        let mut sums = [0.0f32; 98];
        // by blocks and not by entries: a turn makes 24 sums side by side
        for b in 0..4usize {
            let at = 24 * b;
            put_sums(x_6p4, K_MAX, 0, len6p4, &mut sums, at, at + 8, at + 16);
        }
        sums[96] = sum_of_products(x_6p4, K_MAX, 96, len6p4);
        sums[97] = sum_of_products(x_6p4, K_MAX, 97, len6p4);
        sums
    }

    // The correlations of the frame with what lies 17 to 114 samples before it.
    fn correlations(self) -> [f32; 98]
        ensures { result ≡ correlations self.entry.x_6p4.now self.entry.len6p4 }
    {
        let mut r_6p4 = self.window_sums();
        r_6p4.reverse();
        r_6p4
    }

    // The energy of the frame's length of samples that lie `lag` before the frame.
    fn energy(self, lag: usize) -> f32
        requires { lag ≤ 114 }
        ensures { result ≡ energy self.entry.x_6p4.now self.entry.len6p4 lag }
    {
        let Signal { x_6p4, len6p4 } = self;
        let from = K_MAX - lag;
        sum_of_products(x_6p4, from, from, len6p4)
    }

    // A lag with its correlation, over the root of the product of the two energies.
    fn candidate_at(self, lag: usize, correlation: f32) -> Candidate
        requires { lag ≤ 114 }
        ensures { result ≡ record { lag = lag; correlation = correlation; root = root_at self.entry.x_6p4.now self.entry.len6p4 lag; normcorr = over_root correlation (root_at self.entry.x_6p4.now self.entry.len6p4 lag) } }
    {
        let root = root::sqrt(self.energy(0) * self.energy(lag));
        let normcorr = normalised_correlation(correlation, root);
        Candidate {
            lag,
            correlation,
            root,
            normcorr,
        }
    }

    // The lag of a frame, and whether it has a pitch. The second lag wins only above 0.85 times the
    // first.
    fn detect(self, t_prev: usize) -> Detected
        requires { (17 ≤ t_prev) × (t_prev ≤ 114) }
        ensures { result ≡ detected self.entry.x_6p4.now self.entry.len6p4 t_prev }
    {
        let r_6p4 = self.correlations();
        let t1 = lag_t1(&r_6p4);
        let t2 = lag_t2(&r_6p4, t_prev);
        let first = self.candidate_at(t1, r_6p4[t1 - K_MIN]);
        if t1 == t2 {
            return with_presence(first);
        }
        let second = self.candidate_at(t2, r_6p4[t2 - K_MIN]);
        if second.normcorr > 0.85 * first.normcorr {
            return with_presence(second);
        }
        with_presence(first)
    }
}

// The correlations, less the longer the lag: from all of the first to half of the last.
fn weighted(r_6p4: &[f32; 98]) -> [f32; 98]
    ensures { result ≡ weighted r_6p4.now }
{
    let mut r_w_6p4 = [0.0f32; 98];
    for (k, &r) in r_6p4.iter().enumerate() {
        let weight = 1.0 - 0.5 * k as f32 / 97.0;
        r_w_6p4[k] = weight * r;
    }
    r_w_6p4
}

// Where the largest value stands. The search starts at the first entry and moves only to a strictly
// greater one: ties go to the first, and a NaN never wins later. An empty slice gives 0.
fn index_of_max_value(slice: &[f32]) -> usize
    ensures { result ≡ index_of_max slice.now }
{
    let Some(&first) = slice.first() else {
        return 0;
    };
    let mut max = first;
    let mut index = 0;
    for (n, &value) in slice.iter().enumerate() {
        if value > max {
            index = n;
            max = value;
        }
    }
    index
}

// The correlation r over a root. It is 0.0 where there is no root, and where the quotient is a NaN or
// not above 0.
fn normalised_correlation(r: f32, root: Option<f32>) -> f32
    ensures { result ≡ over_root r root }
{
    let Some(normvalue) = root else {
        return 0.0;
    };
    let quotient = r / normvalue;
    if quotient > 0.0 { quotient } else { 0.0 }
}

// The first lag: the largest of the weighted correlations.
fn lag_t1(r_6p4: &[f32; 98]) -> usize
    ensures lag { result ≡ lag1 r_6p4.now }
    ensures range { (17 ≤ result) × (result ≤ 114) }
{
    let r_w_6p4 = weighted(r_6p4);
    index_of_max_value(&r_w_6p4[..]) + K_MIN
}

// The second lag: the largest of the correlations from four lags below the previous one to four above
// it, but from lag 17 to lag 114.
fn lag_t2(r_6p4: &[f32; 98], t_prev: usize) -> usize
    requires { (17 ≤ t_prev) × (t_prev ≤ 114) }
    ensures lag { result ≡ lag2 r_6p4.now t_prev }
    ensures range { (17 ≤ result) × (result ≤ 114) }
{
    let from = K_MIN.max(t_prev - 4) - K_MIN;
    let to = K_MAX.min(t_prev + 4) - K_MIN + 1;
    index_of_max_value(&r_6p4[from..to]) + from + K_MIN
}

// The chosen lag: a pitch is present only above 0.6.
fn with_presence(c: Candidate) -> Detected
    ensures { result ≡ with_presence c }
{
    Detected {
        t_curr: c.lag,
        present: c.normcorr > 0.6,
        correlation: c.correlation,
        root: c.root,
    }
}

// A previous lag, and 17 where it is outside 17 to 114.
fn lag_within(t_prev: usize) -> usize
    ensures { result ≡ lag_within t_prev }
{
    if (K_MIN..=K_MAX).contains(&t_prev) {
        t_prev
    } else {
        K_MIN
    }
}

// The lag of a frame of this duration, and whether it has a pitch: x is its signal at 6.4 kHz, entry 114
// its first sample. A previous lag outside 17 to 114 counts as 17.
pub fn pitch_detection(x_6p4: &[f32; 178], n_ms: FrameDuration, t_prev: usize) -> Detected
    ensures { result ≡ detected x_6p4.now (lengths_of n_ms).len6p4 (lag_within t_prev) }
{
    let signal = Signal {
        x_6p4,
        len6p4: lengths_of(n_ms).len6p4,
    };
    signal.detect(lag_within(t_prev))
}
