// A run over one file of vectors.
use crate::cases::compare_case;
use crate::frames::Encoding;
use crate::stop::Stop;
use crate::tally::Tally;
use arguments::inputs::Reader;
use outcome::Outcome;
use vectors::read::read_number;

// The kinds of records, by their letters: a comment, the encoder's starts and frames, the decoder's cases, and the end.
const COMMENT: u32 = 0x23;

const START: u32 = 0x53;

const FRAME: u32 = 0x46;

const CASE: u32 = 0x54;

const END: u32 = 0x45;

// The most bytes that a comment has, with its newline.
const LONGEST: usize = 1000;

// A newline.
const NEWLINE: u32 = 10;

// Reads a comment to its newline.
fn skip_comment(reader: &mut Reader<'_>) -> Result<(), Stop> {
    for _ in 0..LONGEST {
        if read_number(reader, 1).map_err(|_| Stop::CommentCutOff)? == NEWLINE {
            return Ok(());
        }
    }
    Err(Stop::CommentTooLong)
}

// Takes one record of the file.
fn step(reader: &mut Reader<'_>, encoding: &mut Encoding, tally: &mut Tally) -> Result<(), Stop> {
    let kind = read_number(reader, 1).map_err(|_| Stop::End)?;
    // The letter picks what reads the record: no table of functions would be plainer.
    match kind {
        COMMENT => skip_comment(reader),
        START => encoding.start(reader),
        FRAME => encoding.frame(reader, tally),
        CASE => compare_case(reader, tally),
        END => {
            tally.report.end();
            Ok(())
        }
        _ => Err(Stop::Kind),
    }
}

// Compares the file, and prints the counts. A proved loop has to end: no file has so many records.
pub(crate) fn compare(rt: &HostRuntime, outcome: &mut Outcome, reader: &mut Reader<'_>) {
    let mut encoding = Encoding::new();
    let mut tally = Tally::new(rt, outcome);
    for _ in 0..u64::MAX {
        if !tally.report.more {
            break;
        }
        if let Err(why) = step(reader, &mut encoding, &mut tally) {
            let place = tally.place;
            tally.report.stop(&place, &why);
        }
    }
    *outcome = tally.print_counts();
}
