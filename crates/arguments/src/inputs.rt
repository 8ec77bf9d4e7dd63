// The inputs of a program, one after the other: the files that its arguments name. A dash stands for
// standard input, and so does an argument that is not there.
ghost use Rattle.std.specs.Prelude.{◌≡◌, IfSome};
ghost use Rattle.std.specs.Io.{ReadsAtMost};
ghost use Rattle.io.specs.Counts.{IsPrefixLen};
ghost use Rattle.arguments.specs.Inputs.{before, passed as Inputs·passed, count_of, Follows};

use crate::options::{count, is_there};
use outcome::{Outcome, argument as put_argument, begin_message, failed, write_out};
use std::env::FillError;
use std::fs::File;
use std::io;
use std::io::Read;
use std::rt::Env;
use std::str::from_utf8;

// Where an input comes from: standard input, or a file that is open. Neither is the lack of the other, so this is no option.
#[derive(Drop)]
pub enum Source {
    Standard,
    Named(File),
}

// Where a program is: at an argument, and at its input once that is open.
#[derive(Drop)]
pub struct Inputs {
    pub argument: usize,
    pub source: Option<Source>,
}

// What comes next: an input begins, brings a piece of so many bytes, or ends; or it cannot be read, which
// was said; or there is none any more.
#[derive(Clone, Copy)]
pub enum Event {
    Begun,
    Piece(usize),
    Ended,
    Failed,
    Over,
}

// An event, and where the program is then.
#[derive(Drop)]
pub struct Next {
    pub event: Event,
    pub inputs: Inputs,
}

// What reads from an input.
#[derive(Clone, Copy)]
pub struct Reader<'a> {
    rt: &'a HostRuntime,
    source: &'a Source,
}

// Reads from an input.
fn read_from(rt: &HostRuntime, source: &Source, buffer: &mut [u8]) -> io::Result<usize>
    ensures { ReadsAtMost result buffer.new }
{
    match source {
        Source::Standard => {
            let mut stdin = rt.stdin();
            Read::read(&mut stdin, buffer)
        }
        Source::Named(file) => {
            let mut file = file;
            Read::read(&mut file, buffer)
        }
    }
}

impl<'a> Reader<'a> {
    pub fn new(rt: &'a HostRuntime, source: &'a Source) -> Reader<'a> {
        Reader { rt, source }
    }
}

impl Read for Reader<'_> {
    fn read(&mut self, buffer: &mut [u8]) -> io::Result<usize> {
        read_from(self.rt, self.source, buffer)
    }
}

// An argument that is longer than any path.
fn fail_long(rt: &HostRuntime, outcome: &mut Outcome, argument: usize) {
    begin_message(rt);
    let _ = eprintln!(rt; "argument {argument}: File name too long");
    failed(outcome);
}

// The system's number for a name that is no text: std opens no other.
const EILSEQ: i32 = 84;

fn open_file(rt: &HostRuntime, path: &[u8]) -> io::Result<File> {
    let text = from_utf8(path).map_err(|_| io::Error::from_raw_os_error(EILSEQ))?;
    File::open(rt, text)
}

// The input of a name, or nothing where it cannot be opened, which was said.
fn named(rt: &HostRuntime, outcome: &mut Outcome, path: &[u8]) -> Option<Source> {
    if path == b"-".as_slice() {
        return Some(Source::Standard);
    }
    match open_file(rt, path) {
        Ok(file) => Some(Source::Named(file)),
        Err(error) => {
            outcome::fail(rt, outcome, path, &error);
            None
        }
    }
}

// The input that an argument names, or nothing where it cannot be opened, which was said.
fn source_of(rt: &HostRuntime, outcome: &mut Outcome, argument: usize) -> Option<Source> {
    let mut path = [0u8; 4096];
    match rt.arg(argument, &mut path) {
        Ok(length) => named(rt, outcome, &path[..length]),
        Err(FillError::NotPresent) => Some(Source::Standard),
        Err(FillError::TooLong) => {
            fail_long(rt, outcome, argument);
            None
        }
    }
}

// Says why the input that an argument names cannot be read.
fn fail_read(
    rt: &HostRuntime,
    outcome: &mut Outcome,
    argument: usize,
    source: &Source,
    error: &io::Error,
) {
    match source {
        Source::Standard => outcome::fail(rt, outcome, b"standard input", error),
        Source::Named(_) => {
            let mut path = [0u8; 4096];
            let length = put_argument(rt, argument, &mut path);
            outcome::fail(rt, outcome, &path[..length], error);
        }
    }
}

// Reads from the input that an argument names, and answers how many bytes came, or nothing where it
// cannot be read, which was said.
fn read(
    rt: &HostRuntime,
    outcome: &mut Outcome,
    argument: usize,
    source: &Source,
    buffer: &mut [u8],
) -> Option<usize>
    ensures { IfSome result (λ n. IsPrefixLen n buffer.new) }
{
    match read_from(rt, source, buffer) {
        Ok(got) => Some(got),
        Err(error) => {
            fail_read(rt, outcome, argument, source, &error);
            None
        }
    }
}

// Closes an input; standard input may be named again.
pub fn close(source: Source) {
    drop(source);
}

// Opens the input that an argument names, or gives nothing where it cannot be read, which was said. A
// directory can be opened but not read, which reading no bytes tells.
pub fn open(rt: &HostRuntime, outcome: &mut Outcome, argument: usize) -> Option<Source> {
    let source = source_of(rt, outcome, argument)?;
    let mut none = [0u8; 0];
    read(rt, outcome, argument, &source, &mut none)?;
    Some(source)
}

// Writes the argument that names an input, if it is there, on a line of standard output. Answers whether
// that took it.
pub fn write_name(rt: &HostRuntime, outcome: &mut Outcome, argument: usize) -> bool {
    if !is_there(rt, argument) {
        return true;
    }
    let mut path = [0u8; 4096];
    let length = put_argument(rt, argument, &mut path);
    write_out(rt, outcome, &path[..length]) && write_out(rt, outcome, b"\n")
}

// The argument after those of the inputs. Where there are none, the first stands for standard input.
pub fn end(rt: &HostRuntime) -> usize {
    count(rt).max(2)
}

// Before the input that an argument names.
fn at(argument: usize) -> Inputs
    ensures { result ≡ before argument }
{
    Inputs {
        argument,
        source: None,
    }
}

// Before the first input.
pub fn first() -> Inputs
    ensures { result ≡ before 1 }
{
    at(1)
}

// Before the input after one.
fn passed(inputs: Inputs) -> Inputs
    ensures { result ≡ Inputs·passed inputs }
{
    at(inputs.argument.wrapping_add(1))
}

// Opens the input that is next.
fn begin(rt: &HostRuntime, outcome: &mut Outcome, inputs: Inputs) -> Next
    ensures { (count_of result.event ≡ 0) × Follows inputs result }
{
    let argument = inputs.argument;
    match open(rt, outcome, argument) {
        Some(source) => Next {
            event: Event::Begun,
            inputs: Inputs {
                argument,
                source: Some(source),
            },
        },
        None => Next {
            event: Event::Failed,
            inputs: passed(inputs),
        },
    }
}

// Goes on to the next event. A piece of an input is put at the start of the buffer.
pub fn advance(rt: &HostRuntime, outcome: &mut Outcome, inputs: Inputs, buffer: &mut [u8]) -> Next
    ensures prefix_len { IsPrefixLen (count_of result.event) buffer.new }
    ensures inputs_value { Follows inputs result }
{
    let argument = inputs.argument;
    let Some(source) = &inputs.source else {
        if argument > 1 && !is_there(rt, argument) {
            return Next {
                event: Event::Over,
                inputs,
            };
        }
        return begin(rt, outcome, inputs);
    };
    match read(rt, outcome, argument, source, buffer) {
        None => Next {
            event: Event::Failed,
            inputs: passed(inputs),
        },
        Some(0) => Next {
            event: Event::Ended,
            inputs: passed(inputs),
        },
        Some(count) => Next {
            event: Event::Piece(count),
            inputs,
        },
    }
}

// Goes through the inputs to their end. Of each event, with the input that is then open and the bytes of a
// piece, and of the state before it `each` makes the state after it; the run ends early where it gives none. A
// proved loop has to end, so it counts to a number that no run reaches.
pub fn run<S: Drop, F>(rt: &HostRuntime, outcome: &mut Outcome, start: S, each: F)
where
    F: Fn(&mut Outcome, S, Event, Option<&Source>, &[u8]) -> Option<S>,
    requires { F.IsAlwaysCallable each }
{
    let mut buffer = [0u8; 65536];
    let mut inputs = first();
    let mut state = start;
    for _ in 0..u64::MAX {
        let next = advance(rt, outcome, inputs, &mut buffer);
        inputs = next.inputs;
        let count = match next.event {
            Event::Over => return,
            Event::Piece(count) => count,
            _ => 0,
        };
        let source = inputs.source.as_ref();
        let Some(after) = each(outcome, state, next.event, source, &buffer[..count]) else {
            return;
        };
        state = after;
    }
}
