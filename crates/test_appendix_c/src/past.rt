// The past of a case, and the decoder's state in its parts: what the frames before left, and what the
// frame keeps. Nothing else in this program knows them.
use arguments::inputs::Reader;
use control::marks::Marks;
use decoder::state::Decoder;
use lag::index::unscaled_lag;
use lag::rescale::{Lag, rescale};
use on_ring::registers::Registers;
use slices::put;
use std::convert::identity;
use vectors::part::Numbers;
use vectors::read::{read_number, read_numbers};

const RATE: u32 = 16000;

const DURATION: u32 = 10000;

// The rate's multiple of 8000.
const R: u32 = 2;

// What was read of the past: the frame before with its filter, of whose denominator's five entries the
// first is always 0.0 and is not listed; its inputs, and the outputs of the two frames before.
#[derive(Clone, Copy)]
pub struct Past {
    active: bool,
    index: u32,
    c_n: Numbers<f32>,
    c_d: Numbers<f32>,
    x: Numbers<f32>,
    prev: Numbers<f32>,
}

impl Past {
    pub(crate) fn read(reader: &mut Reader<'_>) -> Past {
        Past {
            active: read_number(reader, 1).unwrap_or_else(identity) != 0,
            index: read_number(reader, 4).unwrap_or_else(identity),
            c_n: read_numbers(reader, 3).unwrap_or_else(identity),
            c_d: read_numbers(reader, 4).unwrap_or_else(identity),
            x: read_numbers(reader, 160).unwrap_or_else(identity),
            prev: read_numbers(reader, 320).unwrap_or_else(identity),
        }
    }

    // The lag that the frame before left: none if it was inactive.
    fn lag(&self) -> Option<Lag> {
        if !self.active {
            return None;
        }
        Some(rescale(R, unscaled_lag(self.index)?))
    }

    // The registers as the frame before left them.
    fn registers(&self) -> Registers {
        Registers {
            marks: Marks {
                rate: RATE,
                duration: DURATION,
                run: 0,
                ltpf_active_prev: self.active,
                settled: false,
                lag: self.lag().unwrap_or(Lag {
                    whole: 0,
                    quarter: 0,
                }),
            },
            block_start_index: 0,
        }
    }

    // The filter that the frame before left: 11 numerator coefficients, and 13 of the denominator after them.
    fn filter(&self) -> [f32; 24] {
        let mut kept = [0.0; 24];
        put(&mut kept, 0, self.c_n.as_slice());
        put(&mut kept, 12, self.c_d.as_slice());
        kept
    }
}

// A ring with a part of it filled.
fn ring(at: usize, part: &Numbers<f32>) -> [f32; 1080] {
    let mut filled = [0.0; 1080];
    put(&mut filled, at, part.as_slice());
    filled
}

// The decoder as the frames before left it. The inputs of the frame before the last are not published;
// the filter reaches back only two inputs.
pub(crate) fn decoder_after(past: &Past) -> Decoder {
    Decoder {
        registers: past.registers(),
        kept: past.filter(),
        x_hat_mem: ring(160, &past.x),
        x_hat_ltpf_mem: ring(0, &past.prev),
    }
}
