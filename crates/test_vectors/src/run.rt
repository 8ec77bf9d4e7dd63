// A run over a vector file, record by record.
use crate::stop::Stop;
use crate::tally::{Kind, Tally};
use arguments::inputs::Reader;
use outcome::Outcome;
use rates::answer::{Answer, number};
use std::convert::identity;
use vectors::part::Numbers;
use vectors::read::{none, read_number, read_numbers};

// The letters of the records: the calls, a set that is lent, and the end.
pub const START: u32 = 0x53;

pub const FRAME: u32 = 0x46;

pub const LOSS: u32 = 0x4c;

const SET: u32 = 0x43;

const END: u32 = 0x45;

// The tables that are lent: the decoder's numerators and denominators, and then nothing; or what the
// encoder resamples with, and interpolates correlations and signals with.
pub type Set = [Numbers<f32>; 3];

// The file, the set that is lent, and the tally.
#[derive(Clone, Copy)]
pub struct Run<'a> {
    pub reader: Reader<'a>,
    pub set: Set,
    pub tally: Tally,
}

// A state that a start gives, and its answer.
pub trait Start: Copy {
    fn start(rate: u32, duration: u32) -> (Self, Answer);
}

// What a vector file is of, with its state.
pub trait End: Copy {
    // How many tables its set has.
    const TABLES: usize;

    // The state before the first record.
    fn new() -> Self;

    // Reads a record of some kind that is neither a set nor the end, and makes and compares its call.
    fn take(&mut self, run: &mut Run<'_>, kind: u32) -> Result<(), Stop>;
}

// Reads a set: the counts of its tables, then the tables. It is whole where its tables and their last counts are.
fn read_set(reader: &mut Reader<'_>, tables: usize) -> Option<Set> {
    let mut counts = [Ok(0); 3];
    for count in counts.iter_mut().take(tables) {
        *count = read_number(reader, 2);
    }
    let [first_count, second_count, third_count] = counts;
    let first = read_numbers(reader, first_count.unwrap_or_else(identity) as usize);
    let second = read_numbers(reader, second_count.unwrap_or_else(identity) as usize);
    let third = read_numbers(reader, third_count.unwrap_or_else(identity) as usize);
    second_count.ok()?;
    third_count.ok()?;
    Some([first.ok()?, second.ok()?, third.ok()?])
}

// Reads what a start's call has: the rate, the duration and the answer.
fn read_start(reader: &mut Reader<'_>) -> Option<[u32; 3]> {
    let rate = read_number(reader, 4).unwrap_or_else(identity);
    let duration = read_number(reader, 4).unwrap_or_else(identity);
    Some([rate, duration, read_number(reader, 1).ok()?])
}

impl Run<'_> {
    // A start of a state: the rate and the duration go in, an answer comes out.
    pub(crate) fn start<S: Start>(&mut self, state: &mut S) -> Result<(), Stop> {
        let [rate, duration, expected] = read_start(&mut self.reader).ok_or(Stop::Call)?;
        let (started, answer) = S::start(rate, duration);
        *state = started;
        self.tally.count(Kind::Start);
        self.tally.number("answer", expected, number(answer));
        Ok(())
    }

    // Takes one record of the file.
    fn step<E: End>(&mut self, end: &mut E) -> Result<(), Stop> {
        let kind = read_number(&mut self.reader, 1).map_err(|_| Stop::End)?;
        match kind {
            SET => self.set = read_set(&mut self.reader, E::TABLES).ok_or(Stop::Set)?,
            END => self.tally.report.end(),
            _ => end.take(self, kind)?,
        }
        Ok(())
    }
}

// Compares the file, and prints the counts. A proved loop has to end: no file has so many records.
pub(crate) fn compare<E: End>(rt: &HostRuntime, outcome: &mut Outcome, reader: Reader<'_>) {
    let mut end = E::new();
    let mut run = Run {
        reader,
        set: [none(); 3],
        tally: Tally::new(rt, outcome),
    };
    for _ in 0..u64::MAX {
        if !run.tally.report.more {
            break;
        }
        if let Err(why) = run.step(&mut end) {
            let last = run.tally.last;
            run.tally.report.stop(&last, &why);
        }
    }
    *outcome = run.tally.print_counts();
}
