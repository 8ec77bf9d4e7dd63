// A decoder's registers in the caller's array of eight numbers.
ghost use Rattle.std.specs.Prelude.{◌≡◌};
ghost use Rattle.rates.specs.Answers.{number_of};
ghost use Rattle.c_arrays.specs.Words.{narrowed, where_done};
ghost use Rattle.c_arrays.specs.Registers.{read_registers, numbers_by, Fits32};

use crate::words::{answer_word, as_flag, is_yes, narrow, wide};
use control::marks::Marks;
use decoder::frame::FramedInPlace;
use lag::rescale::Lag;
use on_ring::registers::Registers;

// The registers that the numbers are.
#[tactic(auto, unfolding(crate::specs::Registers::read_registers))]
pub fn read_registers(numbers: &[u32; 8]) -> Registers
    ensures { (result ≡ read_registers numbers.now) × Fits32 result }
{
    Registers {
        marks: Marks {
            rate: numbers[0],
            duration: numbers[1],
            run: numbers[6],
            ltpf_active_prev: is_yes(numbers[2]),
            settled: is_yes(numbers[7]),
            lag: Lag {
                whole: wide(numbers[4]),
                quarter: wide(numbers[5]),
            },
        },
        block_start_index: wide(numbers[3]),
    }
}

// Puts the numbers of registers into the caller's.
#[tactic(auto, unfolding(crate::specs::Registers::numbers_by))]
pub fn write_numbers(numbers: &mut [u32; 8], registers: Registers)
    ensures { numbers.new ≡ numbers_by narrowed registers }
{
    let marks = registers.marks;
    *numbers = [
        marks.rate,
        marks.duration,
        as_flag(marks.ltpf_active_prev),
        narrow(registers.block_start_index),
        narrow(marks.lag.whole),
        narrow(marks.lag.quarter),
        marks.run,
        as_flag(marks.settled),
    ];
}

// The same with those of a call's result, where the call is done. Gives the number of its answer.
pub fn write_numbers_if_done(numbers: &mut [u32; 8], res: FramedInPlace) -> u32
    ensures { (result ≡ number_of res.answer) × (numbers.new ≡ where_done res.answer (numbers_by narrowed res.registers) numbers.old) }
{
    if res.answer.is_ok() {
        write_numbers(numbers, res.registers);
    }
    answer_word(res.answer)
}
