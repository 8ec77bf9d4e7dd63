// One line of the listing: what a line of input asks, and the row that answers it.
ghost use Rattle.std.specs.Prelude.{◌≡◌, ◌+◌, ◌≤◌, length, Ok};
ghost use Rattle.cells.specs.Texts.{Put, Written};
ghost use Rattle.lag_rows.specs.Rows.{at_rate, answer_to, shown_text, text_of};

use cells::cell::{put_cell, put_text};
use cells::signed::put_signed;
use lag::rescale::{RoundedLag, look_up_lag};
use lines::field::{read_field, split_at_tab};
use rates::answer::{Answer, Refusal, number};
use rates::table::row_of;

// The lag that answers a line, and how it was rounded; none where the line asks for none.
pub type Row = Result<Option<RoundedLag>, Refusal>;

// The row of a rate in Hz and an index: an unknown rate comes before an index that is too large.
fn at_rate(hz: u32, index: Option<u32>) -> Row
    ensures { result ≡ at_rate hz (Ok index) }
{
    let fs = row_of(hz).ok_or(Refusal::UnknownRate)?;
    match index {
        Some(pitch_index) => look_up_lag(fs, pitch_index)
            .map(Some)
            .ok_or(Refusal::IndexTooLarge),
        None => Ok(None),
    }
}

// The row that answers a line, given without its newline. A dash for the rate means 48000.
#[tactic(auto, unfolding(crate::specs::Rows::answer_to))]
pub fn answer_line(line: &[u8]) -> Row
    ensures { result ≡ answer_to line.now }
{
    let (rate, index) = split_at_tab(line).ok_or(Refusal::MalformedLine)?;
    let hz = read_field(rate, 5).map_err(|_| Refusal::MalformedLine)?;
    let pitch_index = read_field(index, 5).map_err(|_| Refusal::MalformedLine)?;
    at_rate(hz.unwrap_or(48000), pitch_index)
}

// The three cells of a lag, dashes where there is none.
fn put_shown(out: &mut [u8], at: usize, shown: Option<RoundedLag>) -> usize
    requires { at + 64 ≤ length out.old }
    ensures cells_written { Written out.old at (shown_text shown) out.new result }
    ensures next_within { result ≤ at + 64 }
{
    match shown {
        None => put_text(out, at, b"-\t-\t-\t"),
        Some(rounded) => {
            let lag = rounded.lag;
            let after_whole = put_cell(out, at, lag.whole as u64, b'\t');
            let after_quarter = put_cell(out, after_whole, lag.quarter as u64, b'\t');
            put_signed(out, after_quarter, rounded.rounding, b'\t')
        }
    }
}

// A row's text, with the number of its line first. It is written from `at` on, and the answer is where
// the next byte goes; where fewer than 106 bytes are left nothing is written, and the answer is `at`.
// The row of a replay is put alike in replay_rows: a trait of what they show would be longer than what they share.
pub fn put_row(
    out: &mut [u8],
    at: usize,
    line: u64,
    answer: Answer,
    lag: Option<RoundedLag>,
) -> usize
    ensures row_put { Put 106 out.old at (text_of line answer lag) out.new result }
    ensures next_within { result ≤ at + 106 }
{
    if out.len().saturating_sub(at) < 106 {
        return at;
    }
    let after_line = put_cell(out, at, line, b'\t');
    let after_lag = put_shown(out, after_line, lag);
    put_cell(out, after_lag, number(answer), b'\n')
}
