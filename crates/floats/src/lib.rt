// 32-bit floats: the tests that a call makes of a lent set and of samples, and bit patterns with one NaN.
#![tactic(auto)]

pub mod bits;

ghost use Rattle.std.specs.Prelude.{◌≡◌, Bool, Float};
ghost use Rattle.floats.specs.Single.{each, finite, all_finite, in_range, all_in_range};

// Whether x is a number: no infinity and no NaN. By hand, since the library's test made the loop over a set up to a
// quarter slower.
fn is_finite(x: f32) -> bool
    ensures { result ≡ finite x }
{
    let infinity: f32 = 1.0 / 0.0;
    if x < infinity {
        return -infinity < x;
    }
    false
}

// Whether every entry of a slice passes a test. It looks at all of them, which a compiler can do many
// at a time.
fn all_of<F: Fn(f32) -> bool>(s: &[f32], test: F) -> bool
    requires { F.IsAlwaysCallable test }
    ensures { (passes : Float → Bool) → ((x : Float) (r : Bool) → F.post test x r → r ≡ passes x) → result ≡ each passes s.now }
{
    let mut all = true;
    for &x in s {
        all = all & test(x);
    }
    all
}

// Whether every entry of a slice is a number.
pub fn all_finite(s: &[f32]) -> bool
    ensures { result ≡ all_finite s.now }
{
    all_of(s, is_finite)
}

// Whether a sample is within ±1,048,576. A NaN is not.
pub fn in_range(x: f32) -> bool
    ensures { result ≡ in_range x }
{
    if -1048576.0 <= x {
        return x <= 1048576.0;
    }
    false
}

// Whether every sample of a slice is.
pub fn all_in_range(s: &[f32]) -> bool
    ensures { result ≡ all_in_range s.now }
{
    all_of(s, in_range)
}
