// The two frame durations.
ghost use Rattle.std.specs.Prelude.{◌≡◌};
ghost use Rattle.rates.specs.Durations.{duration_of};

#[derive(Clone, Copy)]
pub enum FrameDuration {
    TenMs,
    SevenPointFiveMs,
}

// The duration of so many microseconds.
pub fn duration_of(microseconds: u32) -> Option<FrameDuration>
    ensures { result ≡ duration_of microseconds }
{
    match microseconds {
        10000 => Some(FrameDuration::TenMs),
        7500 => Some(FrameDuration::SevenPointFiveMs),
        _ => None,
    }
}
