// The fields of a line: separated by tabs, each a dash or a number.
ghost use Rattle.std.specs.Prelude.{◌≡◌, MatchOption, true, false};
ghost use Rattle.lines.specs.Fields.{tab_at, has_tab, before_tab, after_tab, number_of, is_dash, field_of};

// Said of a text that is not what should stand there.
#[derive(Clone, Copy)]
pub struct Malformed;

// Where the first tab stands, or the length of a line with none: a number, as docs/PROMISES.md promises.
pub fn first_tab(line: &[u8]) -> usize
    ensures { result ≡ tab_at line.now }
{
    line.iter().position(|&b| b == b'\t').unwrap_or(line.len())
}

// What stands before the first tab, and what after it.
pub fn split_at_tab(line: &[u8]) -> Option<(&[u8], &[u8])>
    ensures { MatchOption result (has_tab line.now ≡ false) (λ p. (has_tab line.now ≡ true) × (p.0.now ≡ before_tab line.now) × (p.1.now ≡ after_tab line.now)) }
{
    let tab = first_tab(line);
    if tab < line.len() {
        return Some((&line[..tab], &line[tab + 1..]));
    }
    None
}

// A number of at least one digit and at most `most`, and of nine in any case.
pub fn read_number(s: &[u8], most: usize) -> Result<u32, Malformed>
    ensures { result ≡ number_of most s.now }
{
    if s.is_empty() || s.len() > most.min(9) {
        return Err(Malformed);
    }
    let mut value = 0u32;
    for &b in s {
        if !b.is_ascii_digit() {
            return Err(Malformed);
        }
        value = 10 * value + u32::from(b - b'0');
    }
    Ok(value)
}

fn is_dash(s: &[u8]) -> bool
    ensures { result ≡ is_dash s.now }
{
    s == b"-".as_slice()
}

// A dash, or such a number.
pub fn read_field(s: &[u8], most: usize) -> Result<Option<u32>, Malformed>
    ensures { result ≡ field_of most s.now }
{
    if is_dash(s) {
        return Ok(None);
    }
    Ok(Some(read_number(s, most)?))
}
