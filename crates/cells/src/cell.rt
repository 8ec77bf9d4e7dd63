// Text and the cells of a row. Each function writes from `at` on and answers where the next byte
// goes. Where too little space is left it writes nothing, and answers `at`.
ghost use Rattle.std.specs.Prelude.{◌+◌, ◌≤◌, length};
ghost use Rattle.cells.specs.Texts.{Put, cell, dash_cell};

use crate::decimal::put_number;
use slices::{fits, put};

// A text as it is.
pub fn put_text(out: &mut [u8], at: usize, text: &[u8]) -> usize
    ensures { Put (length text.now) out.old at text.now out.new result }
{
    if !fits(out, at, text.len()) {
        return at;
    }
    put(out, at, text);
    at + text.len()
}

// A number, and the byte that ends its cell.
pub fn put_cell(out: &mut [u8], at: usize, n: u64, end: u8) -> usize
    ensures cell_put { Put 21 out.old at (cell n end) out.new result }
    ensures next_within { result ≤ at + 21 }
{
    if !fits(out, at, 21) {
        return at;
    }
    let next = put_number(out, at, n);
    out[next] = end;
    next + 1
}

// A dash, and the byte that ends its cell.
pub fn put_dash(out: &mut [u8], at: usize, end: u8) -> usize
    ensures dash_put { Put 2 out.old at (dash_cell end) out.new result }
    ensures next_within { result ≤ at + 2 }
{
    if !fits(out, at, 2) {
        return at;
    }
    out[at] = b'-';
    out[at + 1] = end;
    at + 2
}
