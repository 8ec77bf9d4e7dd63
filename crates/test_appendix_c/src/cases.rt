// The decoder's cases: for each the past is put into a decoder, a frame is decoded, and the filter and
// the outputs are compared. All are at 16000 Hz and 10 ms, so a frame has 160 samples.
use crate::past::{Past, decoder_after};
use crate::stop::Stop;
use crate::tally::{Place, Tally};
use arguments::inputs::Reader;
use decoder::frame::frame;
use judging::plan::SideInfo;
use lag::pitch::{PitchRecord, Present};
use published::{DENOMINATOR_16000, NUMERATOR_16000};
use std::convert::identity;
use vectors::part::Numbers;
use vectors::read::{read_number, read_numbers};

// How near the coefficients and the output must come, the output by a full scale of 32768.
// docs/APPENDIX_C.md says why.
const COEFFICIENT: f32 = 0.00000002;

const OUTPUT: f32 = 0.001;

// A case: its number and its past, what goes into the frame, and what is published of it.
#[derive(Clone, Copy)]
struct Case {
    number: u32,
    past: Past,
    side: SideInfo,
    x: Numbers<f32>,
    c_n: Numbers<f32>,
    c_d: Numbers<f32>,
    trans: Numbers<f32>,
}

// Reads what goes into a frame beside its samples.
fn read_side(reader: &mut Reader<'_>) -> SideInfo {
    let nbits = read_number(reader, 4).unwrap_or_else(identity);
    let active = read_number(reader, 1).unwrap_or_else(identity) != 0;
    let index = read_number(reader, 4).unwrap_or_else(identity);
    let pitch = PitchRecord::Present(Present { index, active });
    SideInfo { pitch, nbits }
}

impl Case {
    fn read(reader: &mut Reader<'_>) -> Option<Case> {
        Some(Case {
            number: read_number(reader, 1).unwrap_or_else(identity),
            past: Past::read(reader),
            side: read_side(reader),
            x: read_numbers(reader, 160).unwrap_or_else(identity),
            c_n: read_numbers(reader, 3).unwrap_or_else(identity),
            c_d: read_numbers(reader, 4).unwrap_or_else(identity),
            trans: read_numbers(reader, 160).ok()?,
        })
    }

    // Compares all that is published of the frame: of the filter's 11 numerator entries the first three, of
    // the 13 denominator entries after them the four after the first, and the outputs.
    fn compare(&self, tally: &mut Tally, kept: &[f32; 24], outputs: &[f32]) {
        tally.floats("c_n", &self.c_n, kept, COEFFICIENT);
        tally.floats("c_d", &self.c_d, &kept[12..], COEFFICIENT);
        tally.floats("trans", &self.trans, outputs, OUTPUT);
    }
}

// A case: the frame is decoded with the published rows after its past, and the filter that the decoder
// keeps and the outputs are compared.
pub(crate) fn compare_case(reader: &mut Reader<'_>, tally: &mut Tally) -> Result<(), Stop> {
    let case = Case::read(reader).ok_or(Stop::CaseCutOff)?;
    let mut outputs = case.x;
    let framed = frame(
        decoder_after(&case.past),
        &NUMERATOR_16000,
        &DENOMINATOR_16000,
        case.side,
        outputs.as_mut_slice(),
    );
    framed.answer.map_err(|_| Stop::CaseRefused)?;
    tally.place = Place::Case(case.number);
    case.compare(tally, &framed.decoder.kept, outputs.as_slice());
    Ok(())
}
