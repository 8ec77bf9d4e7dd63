// A listing in calls, in constant memory: it takes input in pieces of any size, line by line, and writes
// the rows into whatever space it is lent. What a line is answered with is its state's.
ghost use Rattle.std.specs.Prelude.{ℕ, ◌≡◌, ◌+◌, ◌≤◌, length, take};
ghost use Rattle.cells.specs.Texts.{Written, Put};
ghost use Rattle.lines.specs.Listings.{RowRules, rules_of};
ghost use Rattle.lines.specs.Calls.{first, after, text, taken, last_text};

use crate::held::{Held, take_line};

// What is known between two lines of a listing that gives every line a row.
pub trait State: Copy {
    ghost rows: { RowRules Self };

    ghost ROW: { ℕ };

    // The space that any row fits.
    const ROW: usize;

    // What is known before the first line.
    fn first() -> Self
        ensures { result ≡ rows.first };

    // Writes the header at the start of the buffer, where it fits, and answers its length.
    fn put_header(out: &mut [u8]) -> usize
        ensures { Put (length rows.header) out.old 0 rows.header out.new result };

    // Writes the row of a line from `at` on, answers where the next byte goes, and moves on to what is known after
    // the line.
    fn put_line(&mut self, line: &[u8], out: &mut [u8], at: usize) -> usize
        requires { at + ROW ≤ length out.old }
        ensures known_after { self.new ≡ rows.moved self.old line.now }
        ensures row_written { Written out.old at (rows.row self.old line.now) out.new result }
        ensures next_within { result ≤ at + ROW };

    // A buffer of 256 bytes takes any row, and the header.
    ghost sizes: { (rows.space ≡ ROW) × (ROW ≤ 256) × (length rows.header ≤ 256) };
}

// What was known before the line that is being read, and what is held of it.
#[derive(Clone, Copy)]
pub struct Listing<S> {
    pub known: S,
    pub held: Held,
}

// The listing after a call, how many bytes of input it took, and how many bytes it wrote.
#[derive(Clone, Copy)]
pub struct Fed<S> {
    pub listing: Listing<S>,
    pub used: usize,
    pub written: usize,
}

impl<S: State> Listing<S> {
    // A listing before its first line.
    pub fn begin() -> Listing<S>
        ensures { result ≡ first (rules_of S.rows) }
    {
        Listing {
            known: S::first(),
            held: Held {
                bytes: [0; 32],
                len: 0,
            },
        }
    }

    // The same, with the header written where it fits.
    pub fn start(out: &mut [u8]) -> Fed<S>
        ensures begun { (result.listing ≡ first (rules_of S.rows)) × (result.used ≡ 0) }
        ensures header_written { Put (length S.rows.header) out.old 0 S.rows.header out.new result.written }
    {
        Fed {
            listing: Listing::begin(),
            used: 0,
            written: S::put_header(out),
        }
    }

    // Takes bytes of input while there is space for a row, and writes the rows that they end.
    pub fn feed(self, input: &[u8], out: &mut [u8]) -> Fed<S>
        ensures bytes_taken { result.used ≡ taken (rules_of S.rows) self input.now (length out.old) }
        ensures listing_after { result.listing ≡ after (rules_of S.rows) self (take result.used input.now) }
        ensures rows_written { Written out.old 0 (text (rules_of S.rows) self (take result.used input.now)) out.new result.written }
        ensures within_bounds { (result.used ≤ length input.now) × (result.written ≤ length out.old) }
    {
        // Two places go on at once: where it reads, by whole lines, and where it writes, by rows.
        let mut known = self.known;
        let mut held = self.held;
        let mut at = 0;
        let mut used = 0;
        while used < input.len() && out.len() - at >= S::ROW {
            let taken = take_line(held, input, used);
            held = taken.held;
            used = taken.at;
            if used < input.len() {
                at = known.put_line(held.line(), out, at);
                held.len = 0;
                used += 1;
            }
        }
        Fed {
            listing: Listing { known, held },
            used,
            written: at,
        }
    }

    // Writes the row of a last line that no newline ended, where any row fits, and answers its length.
    pub fn finish(self, out: &mut [u8]) -> usize
        ensures last_row_written { Put S.ROW out.old 0 (last_text (rules_of S.rows) self) out.new result }
        ensures length_within { result ≤ S.ROW }
    {
        let held = self.held;
        if held.is_empty() || out.len() < S::ROW {
            return 0;
        }
        let mut known = self.known;
        known.put_line(held.line(), out, 0)
    }
}
