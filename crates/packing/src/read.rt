// A pitch record read from bytes.
ghost use Rattle.std.specs.Prelude.{◌≡◌, List, ◌∷◌, ℕ, ◌≤◌, ◌<◌};
ghost use Rattle.packing.specs.Readings.{reading, refused_reading};

use lag::pitch::{PitchRecord, Present};
use rates::answer::{Answer, Refusal};

// How a reading went, the record, and how many bytes it used. No Result, since docs/SCOPE.md has a refused reading give absent,
// with 0 bytes used.
#[derive(Clone, Copy)]
pub struct Reading {
    pub answer: Answer,
    pub pitch: PitchRecord,
    pub used: usize,
}

// A refused reading gives absent, and used nothing.
fn refused(refusal: Refusal) -> Reading
    ensures { result ≡ refused_reading refusal }
{
    Reading {
        answer: Err(refusal),
        pitch: PitchRecord::Absent,
        used: 0,
    }
}

// The bits after a clear presence bit are padding.
fn read_absent(first: u8) -> Reading
    requires { first < 128 }
    ensures { (rest : List ℕ) → result ≡ reading (first ∷ rest) }
{
    if first != 0 {
        return refused(Refusal::PaddingSet);
    }
    Reading {
        answer: Ok(()),
        pitch: PitchRecord::Absent,
        used: 1,
    }
}

// After a set presence bit stand active, six and three bits of the index, and five of padding.
fn read_present(first: u8, second: u8) -> Reading
    requires { 128 ≤ first }
    ensures { (rest : List ℕ) → result ≡ reading (first ∷ second ∷ rest) }
{
    if second % 32 != 0 {
        return refused(Refusal::PaddingSet);
    }
    let upper = (first % 64) as u32;
    let lower = (second >> 5) as u32;
    let index = 8 * upper + lower;
    let active = (first >> 6) % 2 == 1;
    Reading {
        answer: Ok(()),
        pitch: PitchRecord::Present(Present { index, active }),
        used: 2,
    }
}

// Reads the record at the beginning of the bytes, and ignores those that follow it.
pub fn read_pitch(bytes: &[u8]) -> Reading
    ensures { result ≡ reading bytes.now }
{
    let Some(&first) = bytes.first() else {
        return refused(Refusal::TooFewBytes);
    };
    if first < 128 {
        return read_absent(first);
    }
    let Some(&second) = bytes.get(1) else {
        return refused(Refusal::TooFewBytes);
    };
    read_present(first, second)
}
