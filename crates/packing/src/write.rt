// A pitch record written as bytes.
ghost use Rattle.std.specs.Prelude.{◌≡◌, ◌≤◌, get_or};
ghost use Rattle.packing.specs.Form.{form};
ghost use Rattle.packing.specs.Writings.{sent_writing, writing, refused_writing};

use lag::pitch::{PitchRecord, Present, sent_of};
use rates::answer::{Answer, Refusal};

// How a writing went, and how many bytes it wrote: no Result, as of a reading, since a refused one tells that it wrote 0.
#[derive(Clone, Copy)]
pub struct Writing {
    pub answer: Answer,
    pub written: usize,
}

// A refused writing wrote nothing.
fn refused(refusal: Refusal) -> Writing
    ensures { result ≡ refused_writing refusal }
{
    Writing {
        answer: Err(refusal),
        written: 0,
    }
}

// Presence, active, and the upper six bits of the index.
fn first_byte(present: Present) -> u8
    requires { present.index ≤ 511 }
    ensures { result ≡ get_or (form (Some present)) 0 0 }
{
    let active = present.active as u32;
    (128 + 64 * active + (present.index >> 3)) as u8
}

// The lower three bits of the index, and the padding.
fn second_byte(present: Present) -> u8
    ensures { result ≡ get_or (form (Some present)) 1 0 }
{
    (32 * (present.index % 8)) as u8
}

// A present record takes two bytes.
fn write_present(bytes: &mut [u8], present: Present) -> Writing
    ensures { (result, bytes.new) ≡ sent_writing (Some present) bytes.old }
{
    if present.index > 511 {
        return refused(Refusal::IndexTooLarge);
    }
    if bytes.len() < 2 {
        return refused(Refusal::TooFewBytes);
    }
    bytes[0] = first_byte(present);
    bytes[1] = second_byte(present);
    Writing {
        answer: Ok(()),
        written: 2,
    }
}

// An absent record takes one byte.
fn write_absent(bytes: &mut [u8]) -> Writing
    ensures { (result, bytes.new) ≡ sent_writing None bytes.old }
{
    if bytes.is_empty() {
        return refused(Refusal::TooFewBytes);
    }
    bytes[0] = 0;
    Writing {
        answer: Ok(()),
        written: 1,
    }
}

// Writes a record at the beginning of the bytes, and leaves the others as they were.
pub fn write_pitch(bytes: &mut [u8], pitch: PitchRecord) -> Writing
    ensures { (result, bytes.new) ≡ writing pitch bytes.old }
{
    match sent_of(pitch) {
        None => write_absent(bytes),
        Some(present) => write_present(bytes, present),
    }
}
