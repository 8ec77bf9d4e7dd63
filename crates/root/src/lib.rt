// The correctly rounded square root of an `f32`, computed on whole numbers. A unit is 2^-149, the
// smallest float above zero. specs/SquareRoot.antt says what the root is.
#![tactic(auto)]

ghost use Rattle.std.specs.Prelude.{◌≡◌, ◌^◌, ◌<◌, T};
ghost use Rattle.std.specs.Float.Ieee.Positive.{above};
ghost use Rattle.root.specs.SquareRoot.{Nearest, root_of, root_square};
ghost use Rattle.root.specs.Steps.{Normalised, WholeRoot};

// The float significand * 2^(exponent - 275), where the significand has all its 24 digits.
#[derive(Clone, Copy)]
struct Normal {
    significand: u32,
    exponent: u32,
}

// The pattern of +infinity, which lies past those of all finite floats.
const INFINITY: u32 = 0x7f80_0000;

// Where the exponent's field starts: above 23 digits.
const FIELD: u32 = 0x0080_0000;

// The largest q with q * q <= n, digit by digit.
fn whole_root(n: u64) -> u64
    requires { n < 2 ^ 48 }
    ensures { WholeRoot n result }
{
    let mut q: u64 = 0;
    for d in (0..24u64).rev() {
        let next = q + (1u64 << d);
        if next * next <= n {
            q = next;
        }
    }
    q
}

// The significand of the float with the pattern `a`, its leading digit at 2^23, and its exponent.
fn normalised(a: u32) -> Normal
    requires { (0 < a) × (a < 0x7f80_0000) }
    ensures { Normalised a result.significand result.exponent }
{
    let field = a / FIELD;
    let digits = a % FIELD;
    if field == 0 {
        let up = u32::leading_zeros(digits) - 8;
        Normal {
            significand: digits << up,
            exponent: 126 - up,
        }
    } else {
        Normal {
            significand: FIELD + digits,
            exponent: field + 125,
        }
    }
}

// The pattern of the float nearest to the root of the float with the pattern `a`.
fn nearest_root(a: u32) -> u32
    requires { (0 < a) × (a < 0x7f80_0000) }
    ensures { Nearest (root_square a) result }
{
    let s = normalised(a);
    let k = s.exponent;
    // the root of `a` is 2^(k / 2) units times that of n, which has 47 or 48 digits
    let n = (s.significand as u64) << (23 + k % 2);
    let q = whole_root(n);
    // the leading one of q's 24 digits adds 1 to the exponent's field
    let below = k / 2 * FIELD + q as u32;
    // the midpoint is q + 1/2, and its square q * q + q + 1/4
    if q < n - q * q { below + 1 } else { below }
}

// The root of a float above zero, which may be +infinity.
fn root_above_zero(x: f32) -> f32
    requires { T (above x) }
    ensures { root_of x ≡ Some result }
{
    let a = f32::to_bits(x);
    if a == INFINITY {
        return x;
    }
    f32::from_bits(nearest_root(a))
}

// The float nearest to the exact root of x, a tie to the even one. A zero gives itself, and so does
// +infinity; a NaN and what is below zero have no root.
pub fn sqrt(x: f32) -> Option<f32>
    ensures { result ≡ root_of x }
{
    if x == 0.0 {
        return Some(x);
    }
    if 0.0 < x {
        return Some(root_above_zero(x));
    }
    None
}
