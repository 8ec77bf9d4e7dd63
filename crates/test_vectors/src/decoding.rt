// The calls of the decoder, which are those of one ear: each is read, made and compared.
use crate::reports::{Given, Reports, read_pitch};
use crate::run::{End, FRAME, LOSS, Run, START, Start};
use crate::stop::Stop;
use crate::tally::Kind;
use arguments::inputs::Reader;
use decoder::frame::{frame, lost};
use decoder::state::{Decoder, start};
use judging::plan::SideInfo;
use rates::answer::Answer;
use vectors::part::Numbers;
use vectors::read::read_numbers;

// The names of what is reported.
const NAMES: [&str; 2] = ["answer", "settled"];

// A frame: a pitch record, the number of bits and samples go in; an answer, the settled report and
// samples come out.
#[derive(Clone, Copy)]
pub struct Frame {
    side: SideInfo,
    samples: Numbers<f32>,
    reports: Reports,
    expected: Numbers<f32>,
}

impl Frame {
    fn read(reader: &mut Reader<'_>) -> Option<Frame> {
        let pitch = read_pitch(reader);
        let given = Given::read(reader);
        let reports = Reports::read(reader);
        let expected = read_numbers(reader, given.count);
        Some(Frame {
            side: SideInfo {
                pitch,
                nbits: given.nbits,
            },
            samples: given.samples,
            reports: reports.ok()?,
            expected: expected.ok()?,
        })
    }
}

// A loss mark: an answer and the settled report come out.
pub(crate) fn call_loss(decoder: &mut Decoder, run: &mut Run<'_>) -> Result<(), Stop> {
    let expected = Reports::read(&mut run.reader).map_err(|_| Stop::Call)?;
    let framed = lost(*decoder);
    *decoder = framed.decoder;
    run.tally.count(Kind::Loss);
    expected.compare(&mut run.tally, NAMES, framed.answer, framed.settled);
    Ok(())
}

fn call_frame(decoder: &mut Decoder, run: &mut Run<'_>) -> Result<(), Stop> {
    let call = Frame::read(&mut run.reader).ok_or(Stop::Call)?;
    let [numerators, denominators, _] = &run.set;
    let mut samples = call.samples;
    let framed = frame(
        *decoder,
        numerators.as_slice(),
        denominators.as_slice(),
        call.side,
        samples.as_mut_slice(),
    );
    *decoder = framed.decoder;
    run.tally.count(Kind::Frame);
    call.reports
        .compare(&mut run.tally, NAMES, framed.answer, framed.settled);
    run.tally.samples(&call.expected, &samples);
    Ok(())
}

impl Start for Decoder {
    fn start(rate: u32, duration: u32) -> (Self, Answer) {
        let started = start(rate, duration);
        (started.decoder, started.answer)
    }
}

impl End for Decoder {
    const TABLES: usize = 2;

    fn new() -> Self {
        start(48000, 10000).decoder
    }

    fn take(&mut self, run: &mut Run<'_>, kind: u32) -> Result<(), Stop> {
        // The letter picks the call: no table of functions would be plainer.
        match kind {
            START => run.start(self),
            FRAME => call_frame(self, run),
            LOSS => call_loss(self, run),
            _ => Err(Stop::Kind),
        }
    }
}
