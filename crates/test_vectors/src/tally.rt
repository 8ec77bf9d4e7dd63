// The tally of a comparison: the calls made so far and the differences found. Calls are counted from
// 1, each kind by itself, and a difference is printed with its call.
use floats::bits::bits_of;
use outcome::Outcome;
use std::fmt;
use std::fmt::Display;
use vectors::part::Numbers;
use vectors::report::Report;

// The most differences that are printed; all are counted.
const PRINTED: u64 = 1000;

#[derive(Clone, Copy)]
pub enum Kind {
    Start,
    Frame,
    Loss,
}

// A call, by its number among those of its kind.
#[derive(Clone, Copy)]
pub struct Call {
    kind: Kind,
    number: u64,
}

impl Display for Call {
    fn fmt<W: fmt::Write>(&self, f: &mut fmt::Formatter<W>) -> fmt::Result {
        let number = self.number;
        match self.kind {
            Kind::Start => write!(f, "start {number}"),
            Kind::Frame => write!(f, "frame {number}"),
            Kind::Loss => write!(f, "loss mark {number}"),
        }
    }
}

// The last call, how many there were, how many of each kind, and how many numbers of their answers
// differed; and what it is reported by.
#[derive(Clone, Copy)]
pub struct Tally {
    pub report: Report,
    pub last: Call,
    calls: u64,
    starts: u64,
    frames: u64,
    losses: u64,
    differences: u64,
}

impl Tally {
    pub(crate) fn new(rt: &HostRuntime, outcome: &Outcome) -> Self {
        Tally {
            report: Report::new(rt, outcome),
            last: Call {
                kind: Kind::Start,
                number: 0,
            },
            calls: 0,
            starts: 0,
            frames: 0,
            losses: 0,
            differences: 0,
        }
    }

    // One more call.
    pub(crate) fn count(&mut self, kind: Kind) {
        let counted = match kind {
            Kind::Start => &mut self.starts,
            Kind::Frame => &mut self.frames,
            Kind::Loss => &mut self.losses,
        };
        *counted = counted.wrapping_add(1);
        self.last = Call {
            kind,
            number: *counted,
        };
        self.calls = self.calls.wrapping_add(1);
    }

    // One more difference of the last call's answer.
    fn differs<D: Display + Drop>(&mut self, what: D) {
        let last = self.last;
        if self.differences < PRINTED {
            self.report.print(format_args!("{last} {what}\n"));
        }
        self.differences = self.differences.wrapping_add(1);
    }

    // Compares a number of the last call's answer.
    pub(crate) fn number(&mut self, name: &str, expected: u32, got: u64) {
        if u64::from(expected) != got {
            self.differs(format_args!("{name} expected {expected} got {got}"));
        }
    }

    // Compares samples of the last call's answer by their bits, any NaN with any NaN.
    pub(crate) fn samples(&mut self, expected: &Numbers<f32>, got: &Numbers<f32>) {
        let pairs = expected.as_slice().iter().zip(got.as_slice());
        for (place, (expected, got)) in pairs.enumerate() {
            let expected = bits_of(*expected);
            let got = bits_of(*got);
            if expected != got {
                self.differs(format_args!("sample {place} expected {expected:08x} got {got:08x}"));
            }
        }
    }

    // Prints the counts, on a line, and answers how the program has fared then. A difference is a failure,
    // and so is a line that cannot be written.
    pub(crate) fn print_counts(&mut self) -> Outcome {
        let calls = self.calls;
        let frames = self.frames;
        let differences = self.differences;
        self.report.print(format_args!(
            "calls {calls} frames {frames} differences {differences}\n"
        ));
        self.report.outcome(differences > 0)
    }
}
