// Roots of many floats, written as bit patterns to be compared with another implementation's.
// `test_root spread` takes 104,693 inputs from all exponents, `test_root whole` all 2 * 8,388,608
// significands of the exponents 0 and 1, and `test_root every` all 4,294,967,296 patterns.
#![tactic(auto)]

ghost use Rattle.std.specs.Prelude.{◌<◌};

use arguments::options::{is_to_run, refuse};
use floats::bits::{bits_of, float_of};
use outcome::{Outcome, argument, print};
use std::process::ExitCode;

// The inputs of a run: those of `spread_input`, or all patterns from one on. Neither is the lack of the
// other, so this is no option.
#[derive(Clone, Copy)]
enum Inputs {
    Spread,
    From(u32),
}

// A run: its inputs, and how many it has. It writes out the first 16, and then one of so many.
#[derive(Clone, Copy)]
struct Run {
    inputs: Inputs,
    count: u64,
    sample: u64,
    ghost shows_some: { 0 < sample },
}

// Where the exponent's field starts, and how many patterns there are.
const FIELD: u64 = 0x0080_0000;

const PATTERNS: u64 = 0x1_0000_0000;

// What the checksum has for the pattern of a root where there is none: a NaN's, which no root has.
const NONE: u32 = 0xffff_ffff;

// Zero with both signs; the smallest and the largest subnormal and normal float; the infinities, a
// NaN and -1; 0.25, 1, 2, 3 and 4; and the float below 1.
const READABLE: [u32; 16] = [
    0x0000_0000,
    0x8000_0000,
    0x0000_0001,
    0x007f_ffff,
    0x0080_0000,
    0x7f7f_ffff,
    0x7f80_0000,
    0xff80_0000,
    0x7fc0_0000,
    0xbf80_0000,
    0x3e80_0000,
    0x3f80_0000,
    0x4000_0000,
    0x4040_0000,
    0x4080_0000,
    0x3f7f_ffff,
];

// The square of a number of 12 digits, as a pattern: it is below 2^23, or has 24 digits.
fn square_input(i: u64) -> u64 {
    let s = 2048 + i % 2048;
    let n = s * s;
    if n < FIELD {
        148 * FIELD + 2 * n
    } else {
        149 * FIELD + n
    }
}

// The i-th input of the spread after those, a pattern. First the five patterns about the start of
// each exponent field, of both signs; then the three about each power of two below the smallest
// normal float; then the squares; then a walk over the patterns that have no sign.
fn spread_input(i: u64) -> u64 {
    if i < 2560 {
        return i / 5 * FIELD + i % 5 + 0xffff_fffe;
    }
    if i < 2629 {
        let k = i - 2560;
        return (1 << (k / 3)) % FIELD + k % 3 + 0xffff_ffff;
    }
    if i < 4677 {
        return square_input(i - 2629);
    }
    (i - 4677) % PATTERNS * 2654435769 % PATTERNS / 2
}

// The i-th input of a run, a pattern.
fn input(inputs: Inputs, i: u64) -> u32 {
    match inputs {
        Inputs::Spread => match READABLE.get(i as usize) {
            Some(b) => *b,
            None => (spread_input(i - 16) % PATTERNS) as u32,
        },
        Inputs::From(first) => ((first as u64 + i % PATTERNS) % PATTERNS) as u32,
    }
}

// The pattern of the root of the float with the pattern b, if it has one.
fn root_pattern(b: u32) -> Option<u32> {
    root::sqrt(float_of(b)).map(bits_of)
}

// Writes an input and its root, and answers whether it could.
fn print_line(rt: &HostRuntime, outcome: &mut Outcome, b: u32, root: Option<u32>) -> bool {
    match root {
        Some(r) => print(rt, outcome, format_args!("{b:08x} {r:08x}\n")),
        None => print(rt, outcome, format_args!("{b:08x} none\n")),
    }
}

// The checksum with one more root: the roots are digits to the base 1000003, modulo a prime.
fn mixed(sum: u64, root: Option<u32>) -> u64 {
    (sum % 4294967291 * 1000003 + root.unwrap_or(NONE) as u64) % 4294967291
}

impl Run {
    // The run that a word names.
    fn named(word: &[u8]) -> Option<Run> {
        match word {
            b"spread" => Some(Run {
                inputs: Inputs::Spread,
                count: 104693,
                sample: 1021,
            }),
            b"whole" => Some(Run {
                // from 1.0 on
                inputs: Inputs::From(0x3f80_0000),
                count: 0x0100_0000,
                sample: 1048573,
            }),
            b"every" => Some(Run {
                inputs: Inputs::From(0),
                count: PATTERNS,
                sample: 67108859,
            }),
            _ => None,
        }
    }

    fn shows(&self, i: u64) -> bool {
        i < 16 || i % self.sample == 0
    }

    // Takes the roots of the inputs, writes out a sample of them, and answers their checksum. It stops
    // where standard output takes no more.
    fn sum(&self, rt: &HostRuntime, outcome: &mut Outcome) -> u64 {
        let mut sum: u64 = 0;
        for i in 0..self.count {
            let b = input(self.inputs, i);
            let root = root_pattern(b);
            if self.shows(i) && !print_line(rt, outcome, b, root) {
                break;
            }
            sum = mixed(sum, root);
        }
        sum
    }

    // Makes the run, and writes its count and its checksum.
    fn report(&self, rt: &HostRuntime, outcome: &mut Outcome) {
        let count = self.count;
        let sum = self.sum(rt, outcome);
        print(rt, outcome, format_args!("inputs {count} checksum {sum}\n"));
    }
}

fn main(rt: HostRuntime) -> ExitCode {
    let mut outcome = Outcome::new();
    let usage = b"usage: test_root spread | whole | every\n";
    if !is_to_run(
        &rt,
        &mut outcome,
        usage,
        b"writes square roots: of 104693 floats of all exponents, of all floats of two exponents, or of all floats.\n",
        1,
    ) {
        return outcome.status();
    }
    let mut word = [0u8; 4096];
    let n = argument(&rt, 1, &mut word);
    match Run::named(&word[..n]) {
        Some(run) => run.report(&rt, &mut outcome),
        None => refuse(&rt, &mut outcome, 1, usage),
    }
    outcome.status()
}
