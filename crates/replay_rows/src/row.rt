// The text of a row.
ghost use Rattle.std.specs.Prelude.{◌≡◌, ◌+◌, ◌≤◌, length};
ghost use Rattle.cells.specs.Texts.{Put, Written};
ghost use Rattle.replay_rows.specs.Rows.{lag_text, gain_text, rounding_text, columns_text, shown_text, text_of};

use cells::cell::{put_cell, put_dash, put_text};
use cells::signed::put_signed;
use lag::gain::Gain;
use lag::rescale::Lag;
use rates::answer::{Answer, number};
use replaying::frame::Columns;
use telling::told::case_number;

// Whole and quarter, or two dashes for an inactive frame.
fn put_lag(out: &mut [u8], at: usize, active: bool, lag: Lag) -> usize
    requires { at + 42 ≤ length out.old }
    ensures cells_written { Written out.old at (lag_text active lag) out.new result }
    ensures next_within { result ≤ at + 42 }
{
    if active {
        let next = put_cell(out, at, lag.whole as u64, b'\t');
        return put_cell(out, next, lag.quarter as u64, b'\t');
    }
    let next = put_dash(out, at, b'\t');
    put_dash(out, next, b'\t')
}

// The row of the gain, or a dash for an inactive frame or a gain that is off.
fn put_gain(out: &mut [u8], at: usize, active: bool, gain: Option<Gain>) -> usize
    requires { at + 21 ≤ length out.old }
    ensures cell_written { Written out.old at (gain_text active gain) out.new result }
    ensures next_within { result ≤ at + 21 }
{
    match gain {
        Some(gain) if active => put_cell(out, at, gain.row as u64, b'\t'),
        _ => put_dash(out, at, b'\t'),
    }
}

// The lag's rounding, or a dash.
fn put_rounding(out: &mut [u8], at: usize, rounding: Option<i32>) -> usize
    requires { at + 22 ≤ length out.old }
    ensures cell_written { Written out.old at (rounding_text rounding) out.new result }
    ensures next_within { result ≤ at + 22 }
{
    match rounding {
        None => put_dash(out, at, b'\t'),
        Some(difference) => put_signed(out, at, difference, b'\t'),
    }
}

// The six cells of an accepted frame.
fn put_columns(out: &mut [u8], at: usize, columns: Columns) -> usize
    requires { at + 127 ≤ length out.old }
    ensures cells_written { Written out.old at (columns_text columns) out.new result }
    ensures next_within { result ≤ at + 127 }
{
    let told = columns.told;
    let after_case = put_cell(out, at, case_number(told.transition) as u64, b'\t');
    let after_lag = put_lag(out, after_case, told.active, told.lag);
    let after_gain = put_gain(out, after_lag, told.active, told.gain);
    let after_settled = put_cell(out, after_gain, u64::from(columns.settled), b'\t');
    put_rounding(out, after_settled, told.rounding)
}

// The six cells between a row's number and its answer, dashes where there are no columns.
fn put_shown(out: &mut [u8], at: usize, shown: Option<Columns>) -> usize
    requires { at + 127 ≤ length out.old }
    ensures cells_written { Written out.old at (shown_text shown) out.new result }
    ensures next_within { result ≤ at + 127 }
{
    match shown {
        None => put_text(out, at, b"-\t-\t-\t-\t-\t-\t"),
        Some(columns) => put_columns(out, at, columns),
    }
}

// A row, with the number of its line first. It is written from `at` on, and the answer is where the
// next byte goes; where fewer than 169 bytes are left nothing is written, and the answer is `at`.
// The row of a lag is put alike in lag_rows: a trait of what they show would be longer than what they share.
pub fn put_row(
    out: &mut [u8],
    at: usize,
    line: u64,
    answer: Answer,
    shown: Option<Columns>,
) -> usize
    ensures row_put { Put 169 out.old at (text_of line answer shown) out.new result }
    ensures next_within { result ≤ at + 169 }
{
    if out.len().saturating_sub(at) < 169 {
        return at;
    }
    let after_line = put_cell(out, at, line, b'\t');
    let after_shown = put_shown(out, after_line, shown);
    put_cell(out, after_shown, number(answer), b'\n')
}
