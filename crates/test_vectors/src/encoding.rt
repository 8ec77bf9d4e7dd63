// The encoder's calls: each is read, made and compared.
use crate::run::{End, FRAME, Run, START, Start};
use crate::stop::Stop;
use crate::tally::Kind;
use arguments::inputs::Reader;
use encoder::state::{Encoder, start};
use rates::answer::{Answer, number};
use std::convert::identity;
use vectors::part::Numbers;
use vectors::pitch::numbers_of;
use vectors::read::{read_number, read_numbers};

// A frame: the flag, the number of bits and samples go in; an answer, a pitch record and the number of
// its bits come out.
#[derive(Clone, Copy)]
struct Frame {
    near_nyquist: bool,
    nbits: u32,
    samples: Numbers<i16>,
    answer: u32,
    pitch: [u32; 3],
    nbits_ltpf: u32,
}

impl Frame {
    fn read(reader: &mut Reader<'_>) -> Option<Frame> {
        let near_nyquist = read_number(reader, 1).unwrap_or_else(identity) != 0;
        let nbits = read_number(reader, 4).unwrap_or_else(identity);
        let count = read_number(reader, 2).unwrap_or_else(identity);
        let samples = read_numbers(reader, count as usize);
        let answer = read_number(reader, 1).unwrap_or_else(identity);
        let pitch = [
            read_number(reader, 1).unwrap_or_else(identity),
            read_number(reader, 4).unwrap_or_else(identity),
            read_number(reader, 1).unwrap_or_else(identity),
        ];
        let nbits_ltpf = read_number(reader, 1);
        Some(Frame {
            near_nyquist,
            nbits,
            samples: samples.ok()?,
            answer,
            pitch,
            nbits_ltpf: nbits_ltpf.ok()?,
        })
    }
}

fn call_frame(encoder: &mut Encoder, run: &mut Run<'_>) -> Result<(), Stop> {
    let call = Frame::read(&mut run.reader).ok_or(Stop::Call)?;
    let [resampling, correlation, signal] = &run.set;
    let framed = encoder.frame(
        resampling.as_slice(),
        correlation.as_slice(),
        signal.as_slice(),
        call.samples.as_slice(),
        call.nbits,
        call.near_nyquist,
    );
    *encoder = framed.encoder;
    run.tally.count(Kind::Frame);
    run.tally
        .number("answer", call.answer, number(framed.answer));
    let names = ["pitch", "index", "active"];
    for ((name, expected), got) in names.iter().zip(call.pitch).zip(numbers_of(framed.pitch)) {
        run.tally.number(name, expected, u64::from(got));
    }
    run.tally
        .number("bits", call.nbits_ltpf, framed.nbits_ltpf as u64);
    Ok(())
}

// The decoder's is alike: what would make one of both is a trait of their results, which is longer.
impl Start for Encoder {
    fn start(rate: u32, duration: u32) -> (Self, Answer) {
        let started = start(rate, duration);
        (started.encoder, started.answer)
    }
}

impl End for Encoder {
    const TABLES: usize = 3;

    fn new() -> Self {
        start(48000, 10000).encoder
    }

    fn take(&mut self, run: &mut Run<'_>, kind: u32) -> Result<(), Stop> {
        match kind {
            START => run.start(self),
            FRAME => call_frame(self, run),
            _ => Err(Stop::Kind),
        }
    }
}
