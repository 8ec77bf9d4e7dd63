// Writes the bits of each published table, to be compared with the bits that came with them.
#![tactic(auto)]

use arguments::options::is_to_run;
use floats::bits::bits_of;
use outcome::{Outcome, print};
use published::{
    CORRELATION_INTERPOLATION, DENOMINATOR_8000, DENOMINATOR_16000, DENOMINATOR_24000,
    DENOMINATOR_32000, DENOMINATOR_48000, NUMERATOR_8000, NUMERATOR_16000, NUMERATOR_24000,
    NUMERATOR_32000, NUMERATOR_48000, RESAMPLING, SIGNAL_INTERPOLATION,
};
use std::process::ExitCode;

fn print_bits(rt: &HostRuntime, outcome: &mut Outcome, value: f32) -> bool {
    let bits = bits_of(value);
    print(rt, outcome, format_args!("{bits:08x}\n"))
}

// Writes a table, as far as it can be written, and answers whether all of it was.
fn print_table(rt: &HostRuntime, outcome: &mut Outcome, name: &str, table: &[f32]) -> bool {
    let count = table.len();
    if !print(rt, outcome, format_args!("{name} {count}\n")) {
        return false;
    }
    for value in table {
        if !print_bits(rt, outcome, *value) {
            return false;
        }
    }
    true
}

// Writes all tables, as far as they can be written, and answers whether all of them were.
fn print_all(rt: &HostRuntime, outcome: &mut Outcome) -> bool {
    let tables: [(&str, &[f32]); 13] = [
        ("resampling", &RESAMPLING),
        ("correlation_interpolation", &CORRELATION_INTERPOLATION),
        ("signal_interpolation", &SIGNAL_INTERPOLATION),
        ("numerator_8000", &NUMERATOR_8000),
        ("denominator_8000", &DENOMINATOR_8000),
        ("numerator_16000", &NUMERATOR_16000),
        ("denominator_16000", &DENOMINATOR_16000),
        ("numerator_24000", &NUMERATOR_24000),
        ("denominator_24000", &DENOMINATOR_24000),
        ("numerator_32000", &NUMERATOR_32000),
        ("denominator_32000", &DENOMINATOR_32000),
        ("numerator_48000", &NUMERATOR_48000),
        ("denominator_48000", &DENOMINATOR_48000),
    ];
    for (name, table) in tables {
        if !print_table(rt, outcome, name, table) {
            return false;
        }
    }
    true
}

fn main(rt: HostRuntime) -> ExitCode {
    let mut outcome = Outcome::new();
    if is_to_run(
        &rt,
        &mut outcome,
        b"usage: test_published\n",
        b"writes the bits of each published coefficient table.\n",
        0,
    ) {
        print_all(&rt, &mut outcome);
    }
    outcome.status()
}
