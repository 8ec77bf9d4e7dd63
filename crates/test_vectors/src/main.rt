// Compares an end, or both ears of the decoder, with vector files: makes every call that a file lists, and
// prints where an answer, a report, a sample or a pitch record differs from what the file says. The
// arguments name an end and its files, and so on; for a dash, and where an end is named without a file,
// standard input is read.
#![tactic(auto)]

mod both_ears;
mod decoding;
mod encoding;
mod reports;
mod run;
mod stop;
mod tally;

use arguments::inputs::{Reader, close, open, write_name};
use arguments::options::{count, is_to_run, refuse};
use both_ears::Ears;
use decoder::state::Decoder;
use encoder::state::Encoder;
use outcome::{Outcome, argument as put_argument};
use run::compare;
use std::process::ExitCode;

// What a vector file is of.
#[derive(Clone, Copy)]
enum End {
    Decoder,
    Encoder,
    Ears,
}

// The end that was named last, and whether a file has been named for it: there is an end either way.
#[derive(Clone, Copy)]
struct Chosen {
    end: End,
    is_used: bool,
}

impl End {
    // The end that an argument names, if it is no file.
    fn named(rt: &HostRuntime, argument: usize) -> Option<End> {
        let mut space = [0u8; 4096];
        let length = put_argument(rt, argument, &mut space);
        match &space[..length] {
            b"decoder" => Some(End::Decoder),
            b"encoder" => Some(End::Encoder),
            b"ears" => Some(End::Ears),
            _ => None,
        }
    }

    // Compares the input that an argument names.
    fn compare_named(self, rt: &HostRuntime, outcome: &mut Outcome, argument: usize) {
        let Some(source) = open(rt, outcome, argument) else {
            return;
        };
        if write_name(rt, outcome, argument) {
            let reader = Reader::new(rt, &source);
            match self {
                End::Decoder => compare::<Decoder>(rt, outcome, reader),
                End::Encoder => compare::<Encoder>(rt, outcome, reader),
                End::Ears => compare::<Ears>(rt, outcome, reader),
            }
        }
        close(source);
    }
}

impl Chosen {
    fn new(end: End) -> Chosen {
        Chosen {
            end,
            is_used: false,
        }
    }

    // Nothing more is named for the end. An argument that is not there stands for standard input.
    fn finish(self, rt: &HostRuntime, outcome: &mut Outcome) {
        if !self.is_used {
            self.end.compare_named(rt, outcome, count(rt));
        }
    }

    // Takes an argument: another end, or a file.
    fn take(&mut self, rt: &HostRuntime, outcome: &mut Outcome, argument: usize) {
        match End::named(rt, argument) {
            Some(end) => {
                self.finish(rt, outcome);
                *self = Chosen::new(end);
            }
            None => {
                self.end.compare_named(rt, outcome, argument);
                self.is_used = true;
            }
        }
    }
}

// Compares what the arguments name.
fn compare_all(rt: &HostRuntime, outcome: &mut Outcome, usage: &[u8]) {
    let Some(first) = End::named(rt, 1) else {
        refuse(rt, outcome, 1, usage);
        return;
    };
    let mut chosen = Chosen::new(first);
    for argument in 2..count(rt) {
        chosen.take(rt, outcome, argument);
    }
    chosen.finish(rt, outcome);
}

fn main(rt: HostRuntime) -> ExitCode {
    let mut outcome = Outcome::new();
    let usage =
        b"usage: test_vectors decoder|encoder|ears [FILE].. [decoder|encoder|ears [FILE]..]..\n";
    if is_to_run(
        &rt,
        &mut outcome,
        usage,
        b"makes every call that vector files list, and prints where what it gives differs from what they say; from\nstandard input for a dash, and where no file is named.\n",
        usize::MAX,
    ) {
        compare_all(&rt, &mut outcome, usage);
    }
    outcome.status()
}
