// The pitch index as a lag at 12.8 kHz, and back.
ghost use Rattle.std.specs.Prelude.{◌≡◌};
ghost use Rattle.lag.specs.Lag.{unscaled_of, index_of};

// The lag of an index, in quarters of a sample at 12.8 kHz. An index above 511 has none.
#[tactic(auto, unfolding(crate::specs::Lag::quarters))]
pub fn unscaled_lag(pitch_index: u32) -> Option<u16>
    ensures { result ≡ unscaled_of pitch_index }
{
    if pitch_index > 511 {
        return None;
    }
    if pitch_index <= 379 {
        return Some((pitch_index + 128) as u16);
    }
    if pitch_index <= 439 {
        return Some((2 * pitch_index - 252) as u16);
    }
    Some((4 * pitch_index - 1132) as u16)
}

// The index of a lag at 12.8 kHz: its whole part, and its quarters once a negative fraction has
// been carried. Lags start at 32; below that the answer stays at 0.
#[tactic(auto, unfolding(crate::specs::Lag::index_of))]
pub fn lag_index(pitch_int: u16, pitch_fr: u8) -> u32
    ensures { result ≡ index_of pitch_int pitch_fr }
{
    let whole = pitch_int as u32;
    let fraction = pitch_fr as u32;
    if whole >= 127 {
        if whole <= 156 {
            return 2 * whole + fraction / 2 + 126;
        }
        return whole + 283;
    }
    let quarters = 4 * whole + fraction;
    if quarters < 128 {
        return 0;
    }
    quarters - 128
}
