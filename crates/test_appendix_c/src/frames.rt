// The encoder's frames: each is read, encoded and compared.
use crate::stop::Stop;
use crate::tally::{Place, Tally};
use arguments::inputs::Reader;
use encoder::frame::Framed;
use encoder::state::{Encoder, start};
use published::{CORRELATION_INTERPOLATION, RESAMPLING, SIGNAL_INTERPOLATION};
use std::convert::identity;
use vectors::part::Numbers;
use vectors::pitch::numbers_of;
use vectors::read::{read_number, read_numbers};

// How near the signal at 12.8 kHz, whose full scale is 32768, and the activation's correlation must come.
// docs/APPENDIX_C.md says why.
const SIGNAL: f32 = 2.0;

const CORRELATION: f32 = 0.000001;

// The encoder, and how many frames it has had.
#[derive(Clone, Copy)]
pub struct Encoding {
    encoder: Encoder,
    frames: u32,
}

// What goes into a frame.
#[derive(Clone, Copy)]
struct Given {
    near_nyquist: bool,
    nbits: u32,
    samples: Numbers<i16>,
}

// What is published of a frame.
#[derive(Clone, Copy)]
struct Expected {
    pitch: [u32; 3],
    t_curr: u32,
    nc_ltpf: Numbers<f32>,
    signal: Numbers<f32>,
}

impl Given {
    fn read(reader: &mut Reader<'_>) -> Option<Given> {
        let near_nyquist = read_number(reader, 1).unwrap_or_else(identity) != 0;
        let nbits = read_number(reader, 4).unwrap_or_else(identity);
        let count = read_number(reader, 2).unwrap_or_else(identity);
        Some(Given {
            near_nyquist,
            nbits,
            samples: read_numbers(reader, count as usize).ok()?,
        })
    }
}

// What is published of the signal at 12.8 kHz: the delayed frame and one sample more. In the 276 samples
// that are kept it starts 24 or 44 before the new ones of the frame, which are 128 or 96.
fn delayed(kept: &[f32; 276], duration: u32) -> &[f32] {
    if duration == 7500 {
        &kept[136..233]
    } else {
        &kept[124..253]
    }
}

impl Expected {
    fn read(reader: &mut Reader<'_>) -> Option<Expected> {
        let pitch = [
            read_number(reader, 1).unwrap_or_else(identity),
            read_number(reader, 4).unwrap_or_else(identity),
            read_number(reader, 1).unwrap_or_else(identity),
        ];
        let t_curr = read_number(reader, 4).unwrap_or_else(identity);
        let nc_ltpf = read_numbers(reader, 1).unwrap_or_else(identity);
        let count = read_number(reader, 2);
        let signal = read_numbers(reader, count.unwrap_or_else(identity) as usize);
        count.ok()?;
        Some(Expected {
            pitch,
            t_curr,
            nc_ltpf,
            signal: signal.ok()?,
        })
    }

    // Compares all that is published of a frame and that shows: the signal, the pitch, and the activation's
    // correlation, which the encoder remembers.
    fn compare(&self, tally: &mut Tally, framed: &Framed) {
        let encoder = &framed.encoder;
        let signal = delayed(&encoder.x_12p8, encoder.duration);
        tally.floats("x_tilde_12k8d", &self.signal, signal, SIGNAL);
        tally.number("t_curr", self.t_curr, encoder.t_prev as u64);
        let names = ["pitch_present", "pitch_index", "ltpf_active"];
        for ((name, expected), got) in names.iter().zip(self.pitch).zip(numbers_of(framed.pitch)) {
            tally.number(name, expected, u64::from(got));
        }
        let correlation = [encoder.memory.mem_nc];
        tally.floats("nc_ltpf", &self.nc_ltpf, &correlation, CORRELATION);
    }
}

// Reads a rate and a duration.
fn read_start(reader: &mut Reader<'_>) -> Option<(u32, u32)> {
    let rate = read_number(reader, 4).unwrap_or_else(identity);
    Some((rate, read_number(reader, 4).ok()?))
}

impl Encoding {
    // An encoder that has had no frame.
    pub(crate) fn new() -> Encoding {
        Encoding {
            encoder: start(16000, 10000).encoder,
            frames: 0,
        }
    }

    // Starts the encoder: a rate and a duration go in.
    pub(crate) fn start(&mut self, reader: &mut Reader<'_>) -> Result<(), Stop> {
        let (rate, duration) = read_start(reader).ok_or(Stop::StartCutOff)?;
        let started = start(rate, duration);
        started.answer.map_err(|_| Stop::StartRefused)?;
        *self = Encoding {
            encoder: started.encoder,
            frames: 0,
        };
        Ok(())
    }

    // Encodes a frame with the published tables.
    fn encode(&self, given: &Given) -> Framed {
        self.encoder.frame(
            &RESAMPLING,
            &CORRELATION_INTERPOLATION,
            &SIGNAL_INTERPOLATION,
            given.samples.as_slice(),
            given.nbits,
            given.near_nyquist,
        )
    }

    // A frame: it goes through the encoder, and what is published of it is compared at its place.
    pub(crate) fn frame(&mut self, reader: &mut Reader<'_>, tally: &mut Tally) -> Result<(), Stop> {
        let given = Given::read(reader);
        let expected = Expected::read(reader);
        let given = given.ok_or(Stop::FrameCutOff)?;
        let expected = expected.ok_or(Stop::FrameCutOff)?;
        let framed = self.encode(&given);
        framed.answer.map_err(|_| Stop::FrameRefused)?;
        tally.place = Place::Frame {
            duration: framed.encoder.duration,
            number: self.frames,
        };
        expected.compare(tally, &framed);
        *self = Encoding {
            encoder: framed.encoder,
            frames: self.frames.wrapping_add(1),
        };
        Ok(())
    }
}
