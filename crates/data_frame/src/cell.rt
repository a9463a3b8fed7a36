//! A cell of a table: what stands between its blanks, whether it is missing, and the number in it.
ghost use Rattle.std.specs.Prelude.{◌≡◌, ◌-◌, ◌<◌, ◌≤◌, Ok, Err, length, take, drop, slice_index, MatchResult, option_map};
ghost use Rattle.frac_core.specs.Values.{exact};
ghost use Rattle.data_frame.specs.Cells.{bare, is_blank, is_missing, is_numeric, number_in, without_leading_blanks, without_trailing_blanks};

use frac_core::{Frac128, NumberFault, read_number};

fn is_blank(byte: u8) -> bool
    ensures { result ≡ is_blank byte }
{
    byte == b' ' || byte == b'\t'
}

// How many blanks stand at the front.
fn leading_blanks(text: &[u8]) -> usize
    ensures within { result ≤ length text.now }
    ensures rest { drop result text.now ≡ without_leading_blanks text.now }
    ensures ascii { 0 < result → slice_index text.now (result - 1) < 128 }
{
    for (i, byte) in text.iter().enumerate() {
        if !is_blank(*byte) {
            return i;
        }
    }
    text.len()
}

// How many bytes stand before the blanks at the end.
fn trailing_blanks_start(text: &[u8]) -> usize
    ensures within { result ≤ length text.now }
    ensures front { take result text.now ≡ without_trailing_blanks text.now }
    ensures ascii { result < length text.now → slice_index text.now result < 128 }
{
    let mut end = text.len();
    while end > 0 && is_blank(text[end - 1]) {
        end -= 1;
    }
    end
}

fn after_blanks(text: &str) -> &str
    ensures { result.now ≡ without_leading_blanks text.now }
{
    &text[leading_blanks(text.as_bytes())..]
}

fn before_blanks(text: &str) -> &str
    ensures { result.now ≡ without_trailing_blanks text.now }
{
    &text[..trailing_blanks_start(text.as_bytes())]
}

#[tactic(auto, unfolding(crate::specs::Cells::bare))]
fn bare(text: &str) -> &str
    ensures { result.now ≡ bare text.now }
{
    before_blanks(after_blanks(text))
}

// Nothing or `NA` is left of a cell.
#[tactic(auto, unfolding(crate::specs::Cells::is_missing))]
pub(crate) fn is_missing(cell: &str) -> bool
    ensures { result ≡ is_missing cell.now }
{
    let left = bare(cell);
    left.is_empty() || left == "NA"
}

// The number in a cell, none where it is missing, or why it holds none.
#[tactic(auto, unfolding(crate::specs::Cells::number_in, crate::specs::Cells::is_missing))]
pub(crate) fn read_cell(cell: &str) -> Result<Option<Frac128>, NumberFault>
    ensures { MatchResult result
        (λ number. number_in cell.now ≡ Ok (option_map exact number))
        (λ fault. number_in cell.now ≡ Err fault) }
{
    let left = bare(cell);
    if left.is_empty() || left == "NA" {
        return Ok(None);
    }
    match read_number(left) {
        Ok(number) => Ok(Some(number)),
        Err(fault) => Err(fault),
    }
}

// Whether a cell fits a column of numbers: it is missing, or a number, too wide or not.
pub(crate) fn is_numeric(cell: &str) -> bool
    ensures { result ≡ is_numeric cell.now }
{
    match read_cell(cell) {
        Ok(_) => true,
        Err(NumberFault::TooWide) => true,
        Err(NumberFault::NotANumber) => false,
    }
}
