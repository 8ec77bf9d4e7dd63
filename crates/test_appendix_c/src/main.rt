// Runs the vectors of the standard's Appendix C through the encoder and the decoder, and prints for
// each how many of its values were compared and how many are out of tolerance. The arguments name
// the files; for a dash, and where there are none, standard input is read.
#![tactic(auto)]

mod cases;
mod frames;
mod past;
mod run;
mod stop;
mod tally;

use arguments::inputs::{Reader, close, end, open, write_name};
use arguments::options::is_to_run;
use outcome::Outcome;
use run::compare;
use std::process::ExitCode;

// Compares the input that an argument names.
fn compare_named(rt: &HostRuntime, outcome: &mut Outcome, argument: usize) {
    let Some(source) = open(rt, outcome, argument) else {
        return;
    };
    if write_name(rt, outcome, argument) {
        let mut reader = Reader::new(rt, &source);
        compare(rt, outcome, &mut reader);
    }
    close(source);
}

// Compares each input.
fn compare_all(rt: &HostRuntime, outcome: &mut Outcome) {
    for argument in 1..end(rt) {
        compare_named(rt, outcome, argument);
    }
}

fn main(rt: HostRuntime) -> ExitCode {
    let mut outcome = Outcome::new();
    if is_to_run(
        &rt,
        &mut outcome,
        b"usage: test_appendix_c [FILE]..\n",
        b"puts the vectors of the standard's Appendix C through the encoder and the decoder, and prints which values are\nout of tolerance; from standard input for a dash, and where no file is named.\n",
        usize::MAX,
    ) {
        compare_all(&rt, &mut outcome);
    }
    outcome.status()
}
