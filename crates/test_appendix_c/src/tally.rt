// The tally of a comparison: vectors, values, and the values that are out of tolerance. Each of those
// is printed with its place, and each vector with its counts.
use floats::bits::bits_of;
use outcome::Outcome;
use std::fmt;
use std::fmt::Display;
use vectors::part::Numbers;
use vectors::report::Report;

// Where vectors stand: nowhere yet, in a frame of the encoder, or in a case of the decoder. Nowhere is printed as a place too,
// so this is no option.
#[derive(Clone, Copy)]
pub enum Place {
    Nowhere,
    Frame { duration: u32, number: u32 },
    Case(u32),
}

impl Display for Place {
    fn fmt<W: fmt::Write>(&self, f: &mut fmt::Formatter<W>) -> fmt::Result {
        match self {
            Place::Nowhere => write!(f, "the file's start"),
            Place::Frame { duration, number } => {
                write!(f, "encoder {duration} us frame {number}")
            }
            Place::Case(number) => write!(f, "decoder case {number}"),
        }
    }
}

// Where the comparison stands, and the counts; and what it is reported by.
#[derive(Clone, Copy)]
pub struct Tally {
    pub report: Report,
    pub place: Place,
    vectors: u64,
    values: u64,
    out: u64,
}

// Whether two values are at most a tolerance apart. A NaN is near nothing.
fn is_near(expected: f32, got: f32, tolerance: f32) -> bool {
    let difference = expected - got;
    -tolerance <= difference && difference <= tolerance
}

impl Tally {
    pub(crate) fn new(rt: &HostRuntime, outcome: &Outcome) -> Self {
        Tally {
            report: Report::new(rt, outcome),
            place: Place::Nowhere,
            vectors: 0,
            values: 0,
            out: 0,
        }
    }

    // Prints what is to be said of a vector at its place.
    fn print<D: Display + Drop>(&mut self, name: &str, what: D) {
        let place = self.place;
        self.report.print(format_args!("{place} {name} {what}\n"));
    }

    // One more vector, whose counts it prints.
    fn vector(&mut self, name: &str, values: u64, out: u64) {
        self.vectors = self.vectors.wrapping_add(1);
        self.values = self.values.wrapping_add(values);
        self.out = self.out.wrapping_add(out);
        self.print(name, format_args!("values {values} out {out}"));
    }

    // Compares a vector of one whole number.
    pub(crate) fn number(&mut self, name: &str, expected: u32, got: u64) {
        let differs = u64::from(expected) != got;
        if differs {
            self.print(name, format_args!("expected {expected} got {got}"));
        }
        self.vector(name, 1, u64::from(differs));
    }

    // Compares a vector of floats, as far as there are both.
    pub(crate) fn floats(
        &mut self,
        name: &str,
        expected: &Numbers<f32>,
        got: &[f32],
        tolerance: f32,
    ) {
        let mut values: u64 = 0;
        let mut out: u64 = 0;
        for (i, (expected, got)) in expected.as_slice().iter().zip(got).enumerate() {
            if !is_near(*expected, *got, tolerance) {
                let expected = bits_of(*expected);
                let got = bits_of(*got);
                self.print(
                    name,
                    format_args!("place {i} expected {expected:08x} got {got:08x}"),
                );
                out = out.wrapping_add(1);
            }
            values = values.wrapping_add(1);
        }
        self.vector(name, values, out);
    }

    // Prints the counts, on a line, and answers how the program has fared then. A value out of tolerance is
    // a failure, and so is a line that cannot be written. test_vectors prints other counts.
    pub(crate) fn print_counts(&mut self) -> Outcome {
        let vectors = self.vectors;
        let values = self.values;
        let out = self.out;
        self.report.print(format_args!("vectors {vectors} values {values} out {out}\n"));
        self.report.outcome(out > 0)
    }
}
