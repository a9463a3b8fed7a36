//! The records of the bytes one after the other, as the crate `csv` finds them.
ghost use Rattle.std.specs.Prelude.{◌≡◌, ◌≢◌, ◌⊎◌, ◌+◌, ◌^◌, ◌<◌, ◌≤◌, ◌∷◌, [], Some, None, length, IfOk, IfErr, MatchBool, MatchResult};
ghost use Rattle.csv.specs.Records.{fields_of};
ghost use Rattle.data_frame.specs.Columns.{cell_at};
ghost use Rattle.data_frame.specs.Records.{records_of};
ghost use Rattle.data_frame.specs.Faults.{row_fault, rows_fault};
ghost use Rattle.data_frame.specs.Reading.{Finds, IsReading, TakesRow, left_of, unread};

use crate::TableFault;
use csv::{ErrorKind, Reader, ReaderBuilder, StringRecord};
use frac_core::MOST_ROWS;
use std::alloc::Global;

/// What stands next.
#[derive(Clone, Copy)]
pub(crate) enum NextRecord {
    End,
    NotText,
    Row,
}

// A reader of every record, of whatever length, with no header of its own.
pub(crate) fn open(alloc: Global, bytes: &[u8]) -> Reader<&[u8]>
    ensures reading { IsReading result }
    ensures records { left_of result ≡ records_of bytes.entry.now }
    ensures unread { length (unread result) ≤ length bytes.entry.now }
{
    ReaderBuilder::new()
        .has_headers(false)
        .flexible(true)
        .from_reader(alloc, bytes)
}

// Reads the next record into `row`. Bytes in memory never fail to be read, but no clause of the
// reader says so: that error, too, is answered as want of memory.
pub(crate) fn next_row(
    reader: &mut Reader<&[u8]>,
    row: &mut StringRecord,
) -> Result<NextRecord, TableFault>
    requires { IsReading reader.old }
    ensures finds { IfOk result (Finds reader.old reader.new (fields_of row.new)) }
    ensures memory { IfErr result (λ e. e ≡ TableFault.OutOfMemory) }
{
    match reader.read_record(row) {
        Ok(true) => Ok(NextRecord::Row),
        Ok(false) => Ok(NextRecord::End),
        Err(e) => match e.kind() {
            ErrorKind::Utf8 { .. } => Ok(NextRecord::NotText),
            _ => Err(TableFault::OutOfMemory),
        },
    }
}

// Reads the record of this number into `row`, and says whether there was one.
pub(crate) fn read_row(
    reader: &mut Reader<&[u8]>,
    row: &mut StringRecord,
    wanted: u32,
    rec: u32,
) -> Result<bool, TableFault>
    requires reading { IsReading reader.old }
    requires small { length (unread reader.old) + 1 < 2 ^ 32 }
    ensures { MatchResult result
        (λ found. MatchBool found
        (TakesRow reader.old reader.new (fields_of row.new)
        × (row_fault wanted rec (fields_of row.new) ≡ None))
        (left_of reader.old ≡ []))
        (λ e. (e ≡ TableFault.OutOfMemory)
        ⊎ (rows_fault wanted rec (left_of reader.old) ≡ Some e)) }
{
    match next_row(reader, row)? {
        NextRecord::End => Ok(false),
        NextRecord::NotText => Err(if rec > MOST_ROWS {
            TableFault::TooManyRows
        } else {
            TableFault::NotUtf8 { rec }
        }),
        NextRecord::Row => {
            let found = row.len() as u32;
            if rec > MOST_ROWS {
                Err(TableFault::TooManyRows)
            } else if found != wanted {
                Err(TableFault::Ragged { rec, found, wanted })
            } else {
                Ok(true)
            }
        }
    }
}

// The field at a place.
pub(crate) fn text_at(row: &StringRecord, place: usize) -> &str
    ensures { result.now ≡ cell_at place (fields_of row.now) }
{
    match row.get(place) {
        Some(text) => text,
        None => "",
    }
}
