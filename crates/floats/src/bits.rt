// A float's bit pattern and back, where every NaN counts as one.
ghost use Rattle.std.specs.Prelude.{◌≡◌};
ghost use Rattle.std.specs.Float.{binary32};
ghost use Rattle.std.specs.Float.Ieee.{to_bits, of_bits};

// The pattern of a float; of any NaN 0x7fc0_0000.
pub fn bits_of(x: f32) -> u32
    ensures { result ≡ to_bits binary32 x }
{
    if x != x {
        return 0x7fc0_0000;
    }
    f32::to_bits(x)
}

// The float of a pattern; of a NaN's pattern a NaN.
pub fn float_of(bits: u32) -> f32
    ensures { result ≡ of_bits binary32 bits }
{
    if bits % 0x8000_0000 > 0x7f80_0000 {
        return 0.0 / 0.0;
    }
    f32::from_bits(bits)
}
