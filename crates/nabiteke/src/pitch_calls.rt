// The functions for C that pack a pitch into bytes and read it back.
ghost use Rattle.std.specs.Prelude.{◌≡◌};
ghost use Rattle.nabiteke.specs.PitchCalls.{write_call, read_call};

use c_arrays::pitch::{pitch_from, write_record};
use c_arrays::words::answer_word;
use packing::read::read_pitch;
use packing::write::write_pitch;

// Writes a pitch at the beginning of the caller's bytes.
#[unsafe(no_mangle)]
pub extern "C" fn nabiteke_pitch_write_(
    pitch_present: u32,
    pitch_index: u32,
    pitch_active: u32,
    bytes: &mut [u8],
    written: &mut usize,
) -> u32
    ensures { (result, bytes.new, written.new) ≡ write_call pitch_present pitch_index pitch_active bytes.old }
{
    let pitch = pitch_from(pitch_present, pitch_index, pitch_active);
    let writing = write_pitch(bytes, pitch);
    *written = writing.written;
    answer_word(writing.answer)
}

// Reads the pitch at the beginning of the caller's bytes.
#[unsafe(no_mangle)]
pub extern "C" fn nabiteke_pitch_read_(bytes: &[u8], record: &mut [u32; 4]) -> u32
    ensures { (result, «record».new) ≡ read_call bytes.now }
{
    let reading = read_pitch(bytes);
    write_record(record, reading.pitch, reading.used as u32);
    answer_word(reading.answer)
}
