//! The marks of rows: a byte for the side of each.
ghost use Rattle.std.specs.Prelude.{◌≡◌, ◌++◌, ◌+◌, ◌≤◌, length, vec_len, vec_capacity, IfOk};
ghost use Rattle.std.specs.List.{flat_map};
ghost use Rattle.report_text.specs.ReportText.{numbered, row_mark, score_mark};
ghost use Rattle.report_text.specs.Said.{side_mark};

use frac_core::OutOfMemory;
use loss_model::Side;
use std::alloc::Global;

/// The marks of rows in their order, of which those below `data_rows` are data rows. It refuses only for memory.
///
/// They are most of a report with many rows, so that they are made in a vector of their own, which has room for all.
pub(crate) fn marks_of(
    alloc: Global,
    data_rows: u32,
    sides: &[Side],
) -> Result<Vec<u8>, OutOfMemory>
    ensures { IfOk result (λ line. line.items ≡ numbered (row_mark data_rows) 0 sides.now) }
{
    let line = match Vec::with_capacity(alloc, sides.len()) {
        Ok(line) => line,
        Err(_) => return Err(OutOfMemory),
    };
    let count = if sides.len() < data_rows as usize {
        sides.len()
    } else {
        data_rows as usize
    };
    let (data, others) = sides.split_at(count);
    let begun = with_marks(line, true, data);
    Ok(with_marks(begun, false, others))
}

// A line with the marks of more rows behind it, all of them data rows or none.
fn with_marks(line: Vec<u8>, are_data: bool, sides: &[Side]) -> Vec<u8>
    requires room { vec_len line + length sides.now ≤ vec_capacity line }
    ensures items { result.items ≡ line.items ++ flat_map (side_mark are_data) sides.now }
    ensures len { vec_len result ≡ vec_len line + length sides.now }
    ensures capacity { vec_capacity result ≡ vec_capacity line }
{
    let mut line = line;
    for side in sides {
        line.push_reserved(score_mark(are_data, *side));
    }
    line
}

// The mark of a row's side. It is looked up, for sides come in no order by which a branch could be foreseen.
#[inline(always)]
fn score_mark(is_data: bool, side: Side) -> u8
    ensures { result ≡ score_mark is_data side }
{
    let marks = if is_data { b"10*" } else { b"+-*" };
    let place = match side {
        Side::Up => 0,
        Side::Down => 1,
        Side::Basic => 2,
    };
    marks[place]
}
