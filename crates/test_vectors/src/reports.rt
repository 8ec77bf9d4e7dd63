// What a vector file has for a call of the decoder.
use crate::tally::Tally;
use arguments::inputs::Reader;
use lag::pitch::{PitchRecord, Present};
use rates::answer::{Answer, number};
use std::convert::identity;
use vectors::part::Numbers;
use vectors::read::{read_number, read_numbers};

// An answer and a settled report.
#[derive(Clone, Copy)]
pub struct Reports {
    answer: u32,
    settled: u32,
}

// What goes into a frame beside its pitch records, and how many samples it says that it has.
#[derive(Clone, Copy)]
pub struct Given {
    pub nbits: u32,
    pub count: usize,
    pub samples: Numbers<f32>,
}

impl Reports {
    // Both, or what came of them; they are whole where the last is.
    pub(crate) fn read(reader: &mut Reader<'_>) -> Result<Reports, Reports> {
        let answer = read_number(reader, 1).unwrap_or_else(identity);
        match read_number(reader, 1) {
            Ok(settled) => Ok(Reports { answer, settled }),
            Err(settled) => Err(Reports { answer, settled }),
        }
    }

    // Compares both, under their names.
    pub(crate) fn compare(
        &self,
        tally: &mut Tally,
        names: [&str; 2],
        answer: Answer,
        settled: bool,
    ) {
        let [answer_name, settled_name] = names;
        tally.number(answer_name, self.answer, number(answer));
        tally.number(settled_name, self.settled, u64::from(settled));
    }
}

impl Given {
    pub(crate) fn read(reader: &mut Reader<'_>) -> Given {
        let nbits = read_number(reader, 4).unwrap_or_else(identity);
        let count = read_number(reader, 2).unwrap_or_else(identity) as usize;
        Given {
            nbits,
            count,
            samples: read_numbers(reader, count).unwrap_or_else(identity),
        }
    }
}

// Reads a pitch record: whether it is present, its index and its active mark.
pub(crate) fn read_pitch(reader: &mut Reader<'_>) -> PitchRecord {
    let present = read_number(reader, 1).unwrap_or_else(identity);
    let index = read_number(reader, 4).unwrap_or_else(identity);
    let active = read_number(reader, 1).unwrap_or_else(identity) != 0;
    if present == 0 {
        return PitchRecord::Absent;
    }
    PitchRecord::Present(Present { index, active })
}
