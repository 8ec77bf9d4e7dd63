// A number written as decimal text.
ghost use Rattle.std.specs.Prelude.{◌≡◌, ◌+◌, ◌*◌, ◌/◌, ◌%◌, ◌≤◌, length};
ghost use Rattle.std.proofs.lemmas.List.Edits.{sets};
ghost use Rattle.cells.specs.Decimal.{decimal};
ghost use Rattle.cells.specs.Texts.{Put};

use slices::fits;

// The tens of a number, and the ones left over.
#[derive(Clone, Copy)]
struct Tens {
    tens: u64,
    ones: u8,
}

// Writes n's digits from `at` on, and answers where the next byte goes. Where fewer than 20 bytes
// are left it writes nothing, and answers `at`.
pub fn put_number(out: &mut [u8], at: usize, n: u64) -> usize
    ensures { Put 20 out.old at (decimal n) out.new result }
{
    if !fits(out, at, 20) {
        return at;
    }
    put_digits(out, at, n)
}

// The digits above the last, then the last.
fn put_digits(out: &mut [u8], at: usize, n: u64) -> usize
    requires { at + length (decimal n) ≤ length out.old }
    ensures next_after_digits { result ≡ at + length (decimal n) }
    ensures digits_stored { out.new ≡ sets out.old at (decimal n) }
{
    if n < 10 {
        out[at] = 48 + n as u8;
        return at + 1;
    }
    let parted = in_tens(n);
    let next = put_digits(out, at, parted.tens);
    out[next] = 48 + parted.ones;
    next + 1
}

// n in tens and ones, with no division, for which a small processor has to call a routine. An
// eighth of four fifths is a tenth, or one too few.
fn in_tens(n: u64) -> Tens
    ensures quotient { result.tens ≡ n / 10 }
    ensures remainder { result.ones ≡ n % 10 }
{
    let tens = four_fifths(n) >> 3;
    let twice = tens + tens;
    let ones = n - (twice + twice + twice + twice + twice);
    if ones < 10 {
        return Tens {
            tens,
            ones: ones as u8,
        };
    }
    Tens {
        tens: tens + 1,
        ones: (ones - 10) as u8,
    }
}

// Four fifths of n, or a little less: three quarters, a sixteenth more, a 256th more, and so on.
fn four_fifths(n: u64) -> u64
    ensures { (5 * result ≤ 4 * n) × (4 * n ≤ 5 * result + 40) }
{
    let mut e = (n >> 1) + (n >> 2);
    e = e + (e >> 4);
    e = e + (e >> 8);
    e = e + (e >> 16);
    e + (e >> 32)
}
