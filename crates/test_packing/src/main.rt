// Writes every pitch record as bytes and reads it back, and reads every byte and every pair of
// bytes, to be compared with another packer's.
#![tactic(auto)]

ghost use Rattle.std.specs.Prelude.{◌≤◌};

use arguments::options::is_to_run;
use lag::pitch::{PitchRecord, Present, sent_of};
use outcome::{Outcome, print, write_out};
use packing::read::{Reading, read_pitch};
use packing::write::write_pitch;
use rates::answer::number;
use std::process::ExitCode;

// A number and a tab.
fn print_cell(rt: &HostRuntime, outcome: &mut Outcome, n: u64) {
    print(rt, outcome, format_args!("{n}\t"));
}

// Index and active, or two dashes.
fn print_pitch(rt: &HostRuntime, outcome: &mut Outcome, pitch: PitchRecord) {
    match sent_of(pitch) {
        None => {
            write_out(rt, outcome, b"-\t-\t");
        }
        Some(present) => {
            print_cell(rt, outcome, present.index as u64);
            print_cell(rt, outcome, present.active as u64);
        }
    }
}

// Bytes and a tab; a dash where there are none.
fn print_bytes(rt: &HostRuntime, outcome: &mut Outcome, bytes: &[u8]) {
    if bytes.len() == 0 {
        write_out(rt, outcome, b"-");
    }
    for byte in bytes {
        print(rt, outcome, format_args!("{byte:02x}"));
    }
    write_out(rt, outcome, b"\t");
}

// Ends a line with a reading, and answers whether all of the line could be written.
fn print_reading(rt: &HostRuntime, outcome: &mut Outcome, reading: Reading) -> bool {
    let answer = reading.answer;
    let pitch = reading.pitch;
    let used = reading.used;
    print_cell(rt, outcome, number(answer));
    print_pitch(rt, outcome, pitch);
    print(rt, outcome, format_args!("{used}\n"))
}

// A record written over bytes, and what they are then read as.
fn write_line(
    rt: &HostRuntime,
    outcome: &mut Outcome,
    bytes: &mut [u8],
    pitch: PitchRecord,
) -> bool {
    let writing = write_pitch(bytes, pitch);
    let answer = writing.answer;
    print_pitch(rt, outcome, pitch);
    print_cell(rt, outcome, bytes.len() as u64);
    print_cell(rt, outcome, number(answer));
    print_cell(rt, outcome, writing.written as u64);
    print_bytes(rt, outcome, bytes);
    print_reading(rt, outcome, read_pitch(bytes))
}

// The same over so many bytes of A5.
fn write_into(rt: &HostRuntime, outcome: &mut Outcome, room: usize, pitch: PitchRecord) -> bool
    requires { room ≤ 3 }
{
    let mut bytes = [0xa5u8; 3];
    write_line(rt, outcome, &mut bytes[..room], pitch)
}

fn write_present(
    rt: &HostRuntime,
    outcome: &mut Outcome,
    room: usize,
    index: u32,
    active: bool,
) -> bool
    requires { room ≤ 3 }
{
    write_into(
        rt,
        outcome,
        room,
        PitchRecord::Present(Present { index, active }),
    )
}

// All 1,025 records, with room to spare.
fn write_every(rt: &HostRuntime, outcome: &mut Outcome) -> bool {
    for index in 0..512 {
        for active in [false, true] {
            if !write_present(rt, outcome, 3, index, active) {
                return false;
            }
        }
    }
    write_into(rt, outcome, 3, PitchRecord::Absent)
}

// Records with and without a form, in a room of two bytes or less.
fn write_in_little_room(rt: &HostRuntime, outcome: &mut Outcome, room: usize) -> bool
    requires { room ≤ 2 }
{
    write_present(rt, outcome, room, 0, false)
        && write_present(rt, outcome, room, 511, true)
        && write_present(rt, outcome, room, 512, false)
        && write_present(rt, outcome, room, 4294967295, true)
        && write_into(rt, outcome, room, PitchRecord::Absent)
}

// Whether a reading is refused with 12, absent and no byte used.
fn is_padding_refused(reading: Reading) -> bool {
    let answer = reading.answer;
    let pitch = reading.pitch;
    matches!(pitch, PitchRecord::Absent) && reading.used == 0 && number(answer) == 12
}

// Lists a reading of bytes, and answers whether it could.
fn list_reading(rt: &HostRuntime, outcome: &mut Outcome, bytes: &[u8], reading: Reading) -> bool {
    print_bytes(rt, outcome, bytes);
    print_reading(rt, outcome, reading)
}

// The i-th of all runs of one byte or of two.
fn run_of_bytes(width: usize, i: u32) -> [u8; 2] {
    let low = (i % 256) as u8;
    if width == 1 {
        return [low, 0];
    }
    [(i / 256 % 256) as u8, low]
}

// Lists the readings of all runs of so many bytes but those refused with 12, which it counts.
fn read_every(rt: &HostRuntime, outcome: &mut Outcome, width: usize, count: u32) -> bool
    requires { width ≤ 2 }
{
    let mut refused: u64 = 0;
    for i in 0..count {
        let run = run_of_bytes(width, i);
        let bytes = &run[..width];
        let reading = read_pitch(bytes);
        if is_padding_refused(reading) {
            refused += 1;
        } else if !list_reading(rt, outcome, bytes, reading) {
            return false;
        }
    }
    print_cell(rt, outcome, width as u64);
    print_cell(rt, outcome, 12);
    print(rt, outcome, format_args!("{refused}\n"))
}

// Writes all, as far as it can be written.
fn write_all(rt: &HostRuntime, outcome: &mut Outcome) -> bool {
    write_out(
        rt,
        outcome,
        b"index\tactive\troom\tanswer\twritten\tbytes\tanswer\tindex\tactive\tused\n",
    ) && write_every(rt, outcome)
        && write_in_little_room(rt, outcome, 0)
        && write_in_little_room(rt, outcome, 1)
        && write_in_little_room(rt, outcome, 2)
        && write_out(rt, outcome, b"bytes\tanswer\tindex\tactive\tused\n")
        && read_every(rt, outcome, 0, 1)
        && read_every(rt, outcome, 1, 256)
        && read_every(rt, outcome, 2, 65536)
}

fn main(rt: HostRuntime) -> ExitCode {
    let mut outcome = Outcome::new();
    if is_to_run(
        &rt,
        &mut outcome,
        b"usage: test_packing\n",
        b"writes every pitch record as bytes and reads it back, and reads every byte and every pair of bytes.\n",
        0,
    ) {
        write_all(&rt, &mut outcome);
    }
    outcome.status()
}
