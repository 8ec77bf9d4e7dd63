// A filter as it is kept, and the lines it is used on.
ghost use Rattle.std.specs.Prelude.{◌≡◌, ◌+◌, ◌-◌, ◌/◌, ◌≤◌, length};
ghost use Rattle.filter.specs.Kept.{kept_as, used_num, used_den, nearest};

// A filter's order and whole lag, and its coefficients: 11 of the numerator, then 13 of the denominator.
#[derive(Clone, Copy)]
pub struct KeptFilter<'a> {
    pub l_den: usize,
    pub lag: usize,
    pub coefficients: &'a [f32; 24],
}

impl<'a> KeptFilter<'a> {
    // The coefficients of the numerator that are used.
    pub(crate) fn num(self) -> &'a [f32]
        requires { (2 ≤ self.l_den) × (self.l_den ≤ 12) }
        ensures { (result.now ≡ used_num (kept_as self.entry)) × (length result.now ≡ self.entry.l_den - 1) }
    {
        let coefficients = self.coefficients;
        &coefficients[..self.l_den - 1]
    }

    // The coefficients of the denominator that are used.
    #[tactic(auto, using(crate::proofs::Reading::first_of_more))]
    pub(crate) fn den(self) -> &'a [f32]
        requires { self.l_den ≤ 12 }
        ensures { (result.now ≡ used_den (kept_as self.entry)) × (length result.now ≡ self.entry.l_den + 1) }
    {
        let coefficients = self.coefficients;
        &coefficients[11..][..self.l_den + 1]
    }

    // How far before an output the newest one lies that it is made of.
    pub(crate) fn nearest(self) -> usize
        requires { self.l_den / 2 ≤ self.lag }
        ensures { result ≡ nearest (kept_as self.entry) }
    {
        self.lag - self.l_den / 2
    }
}

// How many past samples stand in front of a line of outputs, and how many outputs a fade lasts.
#[derive(Clone, Copy)]
pub struct Spans {
    pub history: usize,
    pub fade: usize,
}
