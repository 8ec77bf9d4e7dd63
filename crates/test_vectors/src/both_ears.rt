// The records of both ears: the calls of one, a frame of both, and what is made up in the state of one.
use crate::decoding::call_loss;
use crate::reports::{Given, Reports, read_pitch};
use crate::run::{End, FRAME, LOSS, Run, START};
use crate::stop::Stop;
use crate::tally::Kind;
use arguments::inputs::Reader;
use decoder::state::Decoder;
use ears::frame::{BothFramed, frame_both};
use ears_judging::ear::Ear;
use lag::pitch::PitchRecord;
use std::convert::identity;
use vectors::part::Numbers;
use vectors::read::{read_number, read_numbers};

// The letters of the records that are no calls: the run that is made up in an ear, and the rate and
// duration that are.
const RUN: u32 = 0x52;

const NAMES: u32 = 0x4e;

// The states of both.
#[derive(Clone, Copy)]
pub struct Ears {
    left: Decoder,
    right: Decoder,
}

// A frame of both: pitch records, the number of bits and samples go in; answers, settled reports and
// samples come out.
#[derive(Clone, Copy)]
struct Frame {
    pitches: [PitchRecord; 2],
    given: Given,
    reports: [Reports; 2],
    expected: Numbers<f32>,
}

impl Frame {
    fn read(reader: &mut Reader<'_>) -> Option<Frame> {
        let pitches = [read_pitch(reader), read_pitch(reader)];
        let given = Given::read(reader);
        let left = Reports::read(reader).unwrap_or_else(identity);
        let right = Reports::read(reader);
        let expected = read_numbers(reader, given.count);
        Some(Frame {
            pitches,
            given,
            reports: [left, right.ok()?],
            expected: expected.ok()?,
        })
    }
}

impl Ears {
    // Reads which ear is meant, 0 for left, any other number for right: its state.
    fn read_ear(&mut self, reader: &mut Reader<'_>) -> &mut Decoder {
        match read_number(reader, 1).unwrap_or_else(identity) {
            0 => &mut self.left,
            _ => &mut self.right,
        }
    }

    // Decodes a frame in place.
    fn decode(&mut self, run: &Run<'_>, call: &Frame, samples: &mut [f32]) -> BothFramed {
        let [numerators, denominators, _] = &run.set;
        let [left_pitch, right_pitch] = call.pitches;
        let left = &mut self.left;
        let right = &mut self.right;
        let framed = frame_both(
            Ear {
                registers: left.registers,
                pitch: left_pitch,
            },
            &mut left.kept,
            &mut left.x_hat_mem,
            &mut left.x_hat_ltpf_mem,
            Ear {
                registers: right.registers,
                pitch: right_pitch,
            },
            &mut right.kept,
            &mut right.x_hat_mem,
            &mut right.x_hat_ltpf_mem,
            numerators.as_slice(),
            denominators.as_slice(),
            call.given.nbits,
            samples,
        );
        left.registers = framed.left.registers;
        right.registers = framed.right.registers;
        framed
    }

    fn call_frame(&mut self, run: &mut Run<'_>) -> Result<(), Stop> {
        let call = Frame::read(&mut run.reader).ok_or(Stop::Call)?;
        let mut samples = call.given.samples;
        let framed = self.decode(run, &call, samples.as_mut_slice());
        let [left, right] = call.reports;
        run.tally.count(Kind::Frame);
        left.compare(
            &mut run.tally,
            ["left answer", "left settled"],
            framed.left.answer,
            framed.left.registers.marks.settled,
        );
        right.compare(
            &mut run.tally,
            ["right answer", "right settled"],
            framed.right.answer,
            framed.right.registers.marks.settled,
        );
        run.tally.samples(&call.expected, &samples);
        Ok(())
    }

    // A made-up run of an ear.
    fn put_run(&mut self, reader: &mut Reader<'_>) -> Option<()> {
        let ear = self.read_ear(reader);
        ear.registers.marks.run = read_number(reader, 4).ok()?;
        Some(())
    }

    // A made-up rate and duration of an ear.
    fn put_names(&mut self, reader: &mut Reader<'_>) -> Option<()> {
        let ear = self.read_ear(reader);
        let rate = read_number(reader, 4).unwrap_or_else(identity);
        let duration = read_number(reader, 4).ok()?;
        ear.registers.marks.rate = rate;
        ear.registers.marks.duration = duration;
        Some(())
    }
}

impl End for Ears {
    const TABLES: usize = 2;

    fn new() -> Self {
        let decoder = Decoder::new();
        Ears {
            left: decoder,
            right: decoder,
        }
    }

    fn take(&mut self, run: &mut Run<'_>, kind: u32) -> Result<(), Stop> {
        match kind {
            START => {
                let ear = self.read_ear(&mut run.reader);
                run.start(ear)
            }
            FRAME => self.call_frame(run),
            LOSS => call_loss(self.read_ear(&mut run.reader), run),
            RUN => self.put_run(&mut run.reader).ok_or(Stop::State),
            NAMES => self.put_names(&mut run.reader).ok_or(Stop::State),
            _ => Err(Stop::Kind),
        }
    }
}
