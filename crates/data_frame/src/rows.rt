//! The cells under a header, column by column.
ghost use Rattle.std.specs.Prelude.{◌≡◌, ◌⊎◌, ◌+◌, ◌-◌, ◌^◌, ◌<◌, ◌≤◌, None, Some, [], length, map, replicate, vec_len, IfOk, OnOk, MatchResult};
ghost use Rattle.csv.specs.Records.{fields_of};
ghost use Rattle.data_frame.specs.Columns.{columns_from, with_row};
ghost use Rattle.data_frame.specs.Faults.{rows_fault};
ghost use Rattle.data_frame.specs.Reading.{IsReading, left_of, unread};

use crate::TableFault;
use crate::records::{read_row, text_at};
use csv::{Reader, StringRecord};
use frac_core::MOST_ROWS;
use std::alloc::{AllocError, Global};

/// The cells of the records under a header, column by column. A column's cells are kept one behind
/// the other, as the fields of a record are.
#[derive(Drop)]
pub(crate) struct Body {
    pub(crate) columns: Vec<StringRecord>,
    pub(crate) records: u32,
}

// So many columns without a cell.
fn empty_columns(alloc: Global, count: usize) -> Result<Vec<StringRecord>, AllocError>
    ensures empty { IfOk result (λ columns. map fields_of columns.items ≡ replicate count []) }
    ensures many { IfOk result (λ columns. vec_len columns ≡ count) }
{
    let mut columns = Vec::with_capacity(alloc, count)?;
    while columns.len() < count {
        columns.push(StringRecord::new(alloc))?;
    }
    Ok(columns)
}

// Adds a record's cells to the columns, the first of which stands at a place.
fn add_row(
    columns: &mut Vec<StringRecord>,
    first: usize,
    row: &StringRecord,
) -> Result<(), AllocError>
    requires { first + vec_len columns.old < 2 ^ 64 }
    ensures added { OnOk result
        (map fields_of columns.new.items
        ≡ with_row (map fields_of columns.old.items) first (fields_of row.now)) }
    ensures many { vec_len columns.new ≡ vec_len columns.old }
{
    for i in 0..columns.len() {
        columns[i].push_field(text_at(row, first + i))?;
    }
    Ok(())
}

// Reads every record under a header of so many fields into the columns from a place on.
pub(crate) fn read_rows(
    alloc: Global,
    reader: &mut Reader<&[u8]>,
    wanted: u32,
    first: usize,
) -> Result<Body, TableFault>
    requires reading { IsReading reader.old }
    requires small { length (unread reader.old) + 1 < 2 ^ 32 }
    requires first { first ≤ wanted }
    ensures { MatchResult result
        (λ body. (rows_fault wanted 1 (left_of reader.old) ≡ None)
        × (map fields_of body.columns.items
        ≡ columns_from (left_of reader.old) first (wanted - first))
        × (body.records ≡ length (left_of reader.old)))
        (λ e. (e ≡ TableFault.OutOfMemory)
        ⊎ (rows_fault wanted 1 (left_of reader.old) ≡ Some e)) }
{
    let mut columns = empty_columns(alloc, wanted as usize - first)?;
    let mut row = StringRecord::new(alloc);
    for records in 0..MOST_ROWS + 1 {
        if !read_row(reader, &mut row, wanted, records + 1)? {
            return Ok(Body { columns, records });
        }
        add_row(&mut columns, first, &row)?;
    }
    unreachable!()
}
