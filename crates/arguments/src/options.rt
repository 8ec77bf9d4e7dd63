// Options: arguments that begin with two dashes. Every program has --help and --version, and no other.
ghost use Rattle.std.specs.Prelude.{◌≡◌, true};
ghost use Rattle.outcome.specs.Outcomes.{after_failure};

use outcome::{
    Outcome, argument as put_argument, begin_message, failed, tell, write_out, write_version,
};
use std::env::FillError;
use std::rt::Env;

// What an argument asks for.
#[derive(Clone, Copy)]
enum Asked {
    Help,
    Version,
    Unknown(usize),
}

// Whether the program was called with an argument of that number, of which its own name is 0.
pub fn is_there(rt: &HostRuntime, argument: usize) -> bool {
    let mut none = [0u8; 0];
    !matches!(rt.arg(argument, &mut none), Err(FillError::NotPresent))
}

// How many arguments there are, the program's name among them.
pub fn count(rt: &HostRuntime) -> usize {
    (0..usize::MAX)
        .find(|&argument| !is_there(rt, argument))
        .unwrap_or(usize::MAX)
}

// What an argument asks for, if it is an option.
fn asked_by(rt: &HostRuntime, argument: usize) -> Option<Asked> {
    let mut space = [0u8; 4096];
    let length = put_argument(rt, argument, &mut space);
    match &space[..length] {
        b"--help" => Some(Asked::Help),
        b"--version" => Some(Asked::Version),
        [b'-', b'-', ..] => Some(Asked::Unknown(argument)),
        _ => None,
    }
}

// What the first option asks for.
fn first_asked(rt: &HostRuntime) -> Option<Asked> {
    (1..count(rt)).find_map(|argument| asked_by(rt, argument))
}

// Says that an argument is wrong, if it is there, and how the program is called.
pub fn refuse(rt: &HostRuntime, outcome: &mut Outcome, argument: usize, usage: &[u8])
    ensures { outcome.new ≡ after_failure outcome.old }
{
    if is_there(rt, argument) {
        let mut space = [0u8; 4096];
        let length = put_argument(rt, argument, &mut space);
        begin_message(rt);
        tell(rt, &space[..length]);
        tell(rt, b": wrong argument\n");
    }
    tell(rt, usage);
    failed(outcome);
}

// Does what the first option asks for, and answers whether the program is to run: it has no option,
// and at most so many arguments. The usage is a line, and help the lines after it.
pub fn is_to_run(
    rt: &HostRuntime,
    outcome: &mut Outcome,
    usage: &[u8],
    help: &[u8],
    most: usize,
) -> bool
    ensures { result ≡ true → outcome.new ≡ outcome.old }
{
    match first_asked(rt) {
        Some(Asked::Help) => {
            if write_out(rt, outcome, usage) {
                write_out(rt, outcome, help);
            }
            false
        }
        Some(Asked::Version) => {
            write_version(rt, outcome);
            false
        }
        Some(Asked::Unknown(argument)) => {
            refuse(rt, outcome, argument, usage);
            false
        }
        None => is_few(rt, outcome, usage, most),
    }
}

// Answers whether there are at most so many arguments, and refuses the first that is one too many.
fn is_few(rt: &HostRuntime, outcome: &mut Outcome, usage: &[u8], most: usize) -> bool
    ensures { result ≡ true → outcome.new ≡ outcome.old }
{
    let end = count(rt);
    if most < end && most + 1 < end {
        refuse(rt, outcome, most + 1, usage);
        return false;
    }
    true
}
