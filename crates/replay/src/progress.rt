// How far a long replay is, on standard error: where that is a terminal, and the size of the input is known.
use arguments::inputs::Source;
use outcome::tell;
use std::io::IsTerminal;
use std::rt::Clock;
use std::{fs, io};

// The bytes of the input, where they are to be shown; those that were read; when the line was last
// written, in seconds, or the run began; and whether it stands there, which says nothing of the others.
#[derive(Clone, Copy)]
pub(crate) struct Progress {
    size: Option<u64>,
    done: u64,
    at: u64,
    is_shown: bool,
}

const MEGABYTE: u64 = 1000000;

// The time in seconds.
fn seconds(rt: &HostRuntime) -> u64 {
    rt.monotonic().map_or(0, |time| time.as_secs())
}

// The bytes of a file; of nothing else are they known.
fn length_of(metadata: io::Result<fs::Metadata>) -> Option<u64> {
    let known = metadata.ok()?;
    known.is_file().then_some(known.len())
}

// Where standard input stands already, as the system tells of an open file: its first line is `pos:`, a tab
// and the position.
fn position_in(told: &str) -> Option<u64> {
    let (digits, _) = told.strip_prefix("pos:\t")?.split_once('\n')?;
    digits.parse::<u64>().ok()
}

fn position(rt: &HostRuntime) -> Option<u64> {
    let told = fs::read_to_string(rt, "/proc/self/fdinfo/0").ok()?;
    position_in(told.as_str())
}

// The bytes from here to the input's end, where it has one, as a pipe has not. A file that was named has just
// been opened, and is at its start.
fn size_of(rt: &HostRuntime, source: &Source) -> Option<u64> {
    match source {
        Source::Named(file) => length_of(file.metadata()),
        Source::Standard => {
            let size = length_of(fs::metadata(rt, "/proc/self/fd/0"))?;
            Some(size.saturating_sub(position(rt).unwrap_or(0)))
        }
    }
}

fn write_line(rt: &HostRuntime, done: u64, size: u64) {
    let read = done / MEGABYTE;
    let all = size / MEGABYTE;
    let _ = eprint!(rt; "\rreplay: {read} of {all} MB");
}

impl Progress {
    // Before the first input.
    pub(crate) fn none() -> Progress {
        Progress {
            size: None,
            done: 0,
            at: 0,
            is_shown: false,
        }
    }

    // Before the first byte of an input.
    pub(crate) fn begin(rt: &HostRuntime, source: Option<&Source>) -> Progress {
        let size = match source {
            Some(source) if rt.stderr().is_terminal() => size_of(rt, source),
            _ => None,
        };
        Progress {
            size,
            at: seconds(rt),
            ..Progress::none()
        }
    }

    // After n bytes more. The time comes in whole seconds, so two lines whose times differ by two are more
    // than a second apart.
    pub(crate) fn show(self, rt: &HostRuntime, n: usize) -> Progress {
        let done = self.done.wrapping_add(n as u64);
        let Some(size) = self.size.filter(|&size| size > 0) else {
            return Progress { done, ..self };
        };
        let now = seconds(rt);
        if now.saturating_sub(self.at) < 2 {
            return Progress { done, ..self };
        }
        write_line(rt, done, size);
        Progress {
            done,
            at: now,
            is_shown: true,
            ..self
        }
    }

    // Leaves an empty line where one was written.
    pub(crate) fn clear(self, rt: &HostRuntime) -> Progress {
        if self.is_shown {
            tell(
                rt,
                b"\r                                                  \r",
            );
        }
        Progress {
            is_shown: false,
            ..self
        }
    }

    // Before rows are written: on a terminal they would go on in the line.
    pub(crate) fn make_way(self, rt: &HostRuntime) -> Progress {
        if rt.stdout().is_terminal() {
            return self.clear(rt);
        }
        self
    }
}
