// The listing of a replay, as the machine for any listing makes it: what is known between two lines, and a line's row.
ghost use Rattle.std.specs.Prelude.{◌≡◌};
ghost use Rattle.std.proofs.Common.{rules};
ghost use Rattle.replay_listing.specs.ByMarks.{marks_rows, replayed_line};

use cells::cell::put_text;
use control::marks::{Marks, clear};
use lines::machine::State;
use replay_rows::row::put_row;
use replaying::frame::Row;
use replaying::step::step;

// What is known between two lines: the number of the next one, the last frame that counted, and what the decoder
// remembers beside samples and coefficients.
#[derive(Clone, Copy)]
pub struct Replay {
    pub line: u64,
    pub last: Option<u32>,
    pub marks: Marks,
}

// The listing of a replay.
pub type Listing = lines::machine::Listing<Replay>;

// What is known after a line, and the line's row.
#[derive(Clone, Copy)]
pub struct Replayed {
    pub replay: Replay,
    pub row: Row,
}

// A line, replayed.
#[tactic(auto, unfolding(crate::specs::ByMarks::replayed_line))]
fn replay_line(replay: Replay, line: &[u8]) -> Replayed
    ensures { result ≡ replayed_line replay line.now }
{
    let stepped = step(replay.last, replay.marks, line);
    Replayed {
        replay: Replay {
            line: replay.line.wrapping_add(1),
            last: stepped.last,
            marks: stepped.marks,
        },
        row: stepped.row,
    }
}

impl State for Replay {
    ghost rows = { marks_rows };

    ghost ROW = { 169 };

    ghost sizes = { Prim.search rules };

    const ROW: usize = 169;

    // A replay is of 48000 Hz and 10 ms.
    fn first() -> Replay {
        Replay {
            line: 1,
            last: None,
            marks: clear(48000, 10000),
        }
    }

    fn put_header(out: &mut [u8]) -> usize {
        put_text(
            out,
            0,
            b"line\tcase\twhole\tquarter\trow\tsettled\trounding\tanswer\n",
        )
    }

    fn put_line(&mut self, line: &[u8], out: &mut [u8], at: usize) -> usize {
        let replayed = replay_line(*self, line);
        let row = replayed.row;
        let next = put_row(out, at, self.line, row.map(|_| ()), row.unwrap_or(None));
        *self = replayed.replay;
        next
    }
}
