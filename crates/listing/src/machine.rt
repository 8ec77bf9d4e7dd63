// The listing of lags, as the machine for any listing makes it: what is known between two lines, and a line's row.
ghost use Rattle.std.proofs.Common.{rules};
ghost use Rattle.listing.specs.Whole.{lag_rows};

use cells::cell::put_text;
use lag_rows::row::{answer_line, put_row};
use lines::machine::State;

// What is known between two lines: the number of the next one.
#[derive(Clone, Copy)]
pub struct Known {
    pub line: u64,
}

// The listing of lags.
pub type Listing = lines::machine::Listing<Known>;

impl State for Known {
    ghost rows = { lag_rows };

    ghost ROW = { 106 };

    ghost sizes = { Prim.search rules };

    const ROW: usize = 106;

    fn first() -> Known {
        Known { line: 1 }
    }

    fn put_header(out: &mut [u8]) -> usize {
        put_text(out, 0, b"line\twhole\tquarter\trounding\tanswer\n")
    }

    fn put_line(&mut self, line: &[u8], out: &mut [u8], at: usize) -> usize {
        let row = answer_line(line);
        let next = put_row(out, at, self.line, row.map(|_| ()), row.unwrap_or(None));
        self.line = self.line.wrapping_add(1);
        next
    }
}
