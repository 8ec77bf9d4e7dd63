// The cell of a number that may be below 0.
ghost use Rattle.std.specs.Prelude.{◌+◌, ◌≤◌};
ghost use Rattle.cells.specs.Texts.{Put, signed_cell};

use crate::cell::put_cell;
use slices::fits;

// Such a number, and the byte that ends its cell; where too little space is left nothing, as in `cell`.
pub fn put_signed(out: &mut [u8], at: usize, n: i32, end: u8) -> usize
    ensures cell_put { Put 22 out.old at (signed_cell n end) out.new result }
    ensures next_within { result ≤ at + 22 }
{
    if !fits(out, at, 22) {
        return at;
    }
    let digits = n.unsigned_abs() as u64;
    if n < 0 {
        out[at] = b'-';
        return put_cell(out, at + 1, digits, end);
    }
    put_cell(out, at, digits, end)
}
