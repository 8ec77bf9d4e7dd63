// How a program says that it failed, and under which name; and the status that it ends with.
#![tactic(auto)]

ghost use Rattle.std.specs.Prelude.{◌≡◌, ◌≤◌, length, true, false};
ghost use Rattle.std.specs.Process.{exit_status};
ghost use Rattle.io.specs.Counts.{IsPrefixLen};
ghost use Rattle.outcome.specs.Outcomes.{fine, after_failure, is_taken, status_of};

use std::fmt::Display;
use std::io;
use std::process::ExitCode;
use std::rt::Env;

// What became of standard output: it took all that it was given; it took no more, which was said; or
// nobody reads it any more.
#[derive(Clone, Copy)]
pub enum Output {
    Open,
    Lost,
    Closed,
}

// How a program has fared so far: whether something failed, and what became of its output. Functions take it
// beside the runtime and not in one value with it: it changes, the runtime does not, and promises are of it alone.
#[derive(Clone, Copy)]
pub struct Outcome {
    pub has_failed: bool,
    pub output: Output,
}

impl Outcome {
    // Before anything happened.
    pub fn new() -> Outcome
        ensures { result ≡ fine }
    {
        Outcome {
            has_failed: false,
            output: Output::Open,
        }
    }

    // Whether standard output took all that it was given.
    pub fn is_taken(&self) -> bool
        ensures { result ≡ is_taken self.now.output }
    {
        matches!(self.output, Output::Open)
    }

    // The status that the program ends with: 0, or 1 where something failed. Where nobody reads its
    // output any more it is 141, as if the signal of a closed pipe had ended it; `./run` makes 1 of that
    // for a caller that ignores the signal.
    pub fn status(&self) -> ExitCode
        ensures { exit_status result ≡ status_of self.now.has_failed self.now.output }
    {
        match self.output {
            Output::Open => ExitCode::from(u8::from(self.has_failed)),
            Output::Lost => ExitCode::from(1),
            Output::Closed => ExitCode::from(141),
        }
    }
}

// Notes that something failed.
pub fn failed(outcome: &mut Outcome)
    ensures { outcome.new ≡ after_failure outcome.old }
{
    outcome.has_failed = true;
}

// Puts an argument at the start of space, and answers its length: 0 where there is none, or where it is
// longer than space. Callers show or compare the text, and an empty one serves them then; so it is no Option.
pub fn argument(rt: &HostRuntime, argument: usize, space: &mut [u8]) -> usize
    ensures { IsPrefixLen result space.new }
{
    rt.arg(argument, space).unwrap_or(0)
}

// Where the last part of a path begins.
fn last_part(path: &[u8]) -> usize
    ensures { result ≤ length path.now }
{
    path.iter()
        .rposition(|&byte| byte == b'/')
        .map_or(0, |slash| slash + 1)
}

// The name that the program was called by, without its folders, put in space.
pub fn program<'a>(rt: &HostRuntime, space: &'a mut [u8]) -> &'a mut [u8] {
    let length = argument(rt, 0, space);
    let start = last_part(&space[..length]);
    &mut space[start..length]
}

// Writes to standard error. Where it takes no more, nobody can be told.
pub fn tell(rt: &HostRuntime, text: &[u8]) {
    let _ = rt.stderr().write_all(text);
}

// Begins a message on standard error with the program's name.
pub fn begin_message(rt: &HostRuntime) {
    let mut space = [0u8; 4096];
    tell(rt, program(rt, &mut space));
    tell(rt, b": ");
}

// Says what failed.
pub fn say(rt: &HostRuntime, outcome: &mut Outcome, what: &[u8])
    ensures { outcome.new ≡ after_failure outcome.old }
{
    begin_message(rt);
    tell(rt, what);
    tell(rt, b"\n");
    failed(outcome);
}

// The error's text, without the number that std puts after the system's own.
fn tell_error(rt: &HostRuntime, error: &io::Error) {
    let Ok(text) = format!(in rt.alloc(); "{error}") else {
        return;
    };
    match text.split_once(" (os error ") {
        Some((words, _)) => tell(rt, words.as_bytes()),
        None => tell(rt, text.as_bytes()),
    }
}

// Says what failed, by its name, and why.
pub fn fail(rt: &HostRuntime, outcome: &mut Outcome, subject: &[u8], error: &io::Error)
    ensures { outcome.new ≡ after_failure outcome.old }
{
    begin_message(rt);
    tell(rt, subject);
    tell(rt, b": ");
    tell_error(rt, error);
    tell(rt, b"\n");
    failed(outcome);
}

// Says that standard output took no more. Where nobody reads the pipe any more that is a failure too, but
// nobody is told.
fn fail_output(rt: &HostRuntime, outcome: &mut Outcome, error: &io::Error)
    ensures { is_taken outcome.new.output ≡ false }
{
    if error.kind() == io::ErrorKind::BrokenPipe {
        failed(outcome);
        outcome.output = Output::Closed;
    } else {
        fail(rt, outcome, b"standard output", error);
        outcome.output = Output::Lost;
    }
}

// Answers whether a write to standard output took all, or says why it did not.
fn is_written(rt: &HostRuntime, outcome: &mut Outcome, written: io::Result<()>) -> bool
    ensures written { result ≡ true → outcome.new ≡ outcome.old }
    ensures not_taken { result ≡ false → is_taken outcome.new.output ≡ false }
{
    match written {
        Ok(()) => true,
        Err(error) => {
            fail_output(rt, outcome, &error);
            false
        }
    }
}

// Writes text to standard output and answers true, or says why it cannot. Once standard output took no
// more nothing is written, and that is said once.
pub fn write_out(rt: &HostRuntime, outcome: &mut Outcome, text: &[u8]) -> bool
    ensures written { result ≡ true → outcome.new ≡ outcome.old }
    ensures taken { result ≡ is_taken outcome.new.output }
{
    if !outcome.is_taken() {
        return false;
    }
    is_written(rt, outcome, rt.write_all(text))
}

// The same with text that is still to be formatted, for which std has a function of its own.
pub fn print<D: Display + Drop>(rt: &HostRuntime, outcome: &mut Outcome, text: D) -> bool
    ensures written { result ≡ true → outcome.new ≡ outcome.old }
    ensures taken { result ≡ is_taken outcome.new.output }
{
    if !outcome.is_taken() {
        return false;
    }
    is_written(rt, outcome, rt.print(text))
}

// Writes the program's name and version.
pub fn write_version(rt: &HostRuntime, outcome: &mut Outcome) {
    let mut space = [0u8; 4096];
    if write_out(rt, outcome, program(rt, &mut space)) {
        write_out(rt, outcome, b" 2.1.0 (Nabiteke)\n");
    }
}
