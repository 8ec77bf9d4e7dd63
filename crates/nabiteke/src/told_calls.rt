// The function for C that tells what a frame is going to do.
ghost use Rattle.std.specs.Prelude.{◌≡◌};
ghost use Rattle.c_arrays.specs.Pitch.{side_from};
ghost use Rattle.nabiteke.specs.ToldCalls.{told_call};

use c_arrays::pitch::side_from;
use c_arrays::registers::read_registers;
use c_arrays::words::{answer_word, as_flag};
use c_telling::told::tell;

// What a frame with this pitch and these bits is going to do. The six numbers are the case, whether the frame is active,
// the lag's whole samples and quarter, whether there is a gain, and its row.
#[unsafe(no_mangle)]
pub extern "C" fn nabiteke_decoder_told_(
    numbers: &[u32; 8],
    pitch_present: u32,
    pitch_index: u32,
    pitch_active: u32,
    nbits: u32,
    told: &mut [u32; 6],
    rounding: &mut i32,
) -> u32
    ensures { (result, told.new, rounding.new) ≡ told_call numbers.now (side_from pitch_present pitch_index pitch_active nbits) }
{
    let registers = read_registers(numbers);
    let side = side_from(pitch_present, pitch_index, pitch_active, nbits);
    let frame = tell(registers, side);
    *told = [
        frame.transition,
        as_flag(frame.active),
        frame.whole,
        frame.quarter,
        as_flag(frame.gain.on),
        frame.gain.row,
    ];
    *rounding = frame.rounding;
    answer_word(frame.answer)
}
