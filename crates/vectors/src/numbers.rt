// The numbers of a vector file: their bytes come lowest first.
ghost use Rattle.std.specs.Prelude.{◌≡◌, ◌<◌, ◌≤◌, ℕ, List, pos};
ghost use Rattle.std.specs.Float.{binary32};
ghost use Rattle.std.specs.Float.Ieee.{of_bits};
ghost use Rattle.vectors.specs.Numbers.{float_at, signed_at};
ghost use Rattle.std.proofs.Common.{rules};

use floats::bits::float_of;

// What a part holds many of: so many bytes stand for each, at most four.
pub trait Entry: Copy {
    ghost WIDTH: { ℕ };

    ghost ZERO: { Self };

    ghost entry_at: { List ℕ → ℕ → Self };

    const WIDTH: usize;

    // What a place holds that nothing was read into.
    const ZERO: Self;

    // The k-th entry of a part's bytes.
    fn at(bytes: &[u8; 4096], k: usize) -> Self
        requires { k < 1024 }
        ensures { result ≡ entry_at bytes.now k };

    ghost fits: { WIDTH ≤ 4 };
}

impl Entry for f32 {
    ghost WIDTH = { 4 };

    ghost ZERO = { of_bits binary32 0 };

    ghost entry_at = { float_at };

    ghost fits = { Prim.search rules };

    const WIDTH: usize = 4;

    const ZERO: f32 = 0.0;

    fn at(bytes: &[u8; 4096], k: usize) -> f32 {
        let i = 4 * k;
        float_of(u32::from_le_bytes([bytes[i], bytes[i + 1], bytes[i + 2], bytes[i + 3]]))
    }
}

impl Entry for i16 {
    ghost WIDTH = { 2 };

    ghost ZERO = { pos 0 };

    ghost entry_at = { signed_at };

    ghost fits = { Prim.search rules };

    const WIDTH: usize = 2;

    const ZERO: i16 = 0;

    fn at(bytes: &[u8; 4096], k: usize) -> i16 {
        let i = 2 * k;
        i16::from_le_bytes([bytes[i], bytes[i + 1]])
    }
}
