//! A whole table, read from the bytes of a CSV file.
ghost use Rattle.std.specs.Prelude.{◌≡◌, ◌⊎◌, ◌+◌, ◌-◌, ◌^◌, ◌<◌, ◌++◌, ◌∷◌, [], All, Ok, Err, length, map, option_map, IfOk, IfErr, IfNone, OnOk, OnSome, Contains};
ghost use Rattle.csv.specs.Records.{fields_of};
ghost use Rattle.data_frame.specs.Cells.{column_of};
ghost use Rattle.data_frame.specs.Tables.{column_named, table_of, table_of_records};
ghost use Rattle.data_frame.specs.Reading.{IsReading, left_of, unread};
ghost use Rattle.data_frame.specs.Records.{records_of};
ghost use Rattle.data_frame.specs.WellFormed.{AreTable};
ghost use Rattle.data_frame.specs.Views.{exact_column, exact_table, lent_column, stored_column};

use crate::TableFault;
use crate::column::{Column, ColumnCells, read_column};
use crate::header::{Names, read_names, set_aside};
use crate::records::{NextRecord, next_row, open};
use crate::rows::read_rows;
use csv::{Reader, StringRecord};
use frac_core::Text;
use std::alloc::{AllocError, Global};
use std::marker::Model;

/// A table that was read. Contracts see the names of its columns, the number of its records, and
/// one column for each name; a column of row names that was set aside is in none of these.
#[derive(Drop)]
pub struct Frame {
    names: Names,
    records: u32,
    columns: Vec<ColumnCells>,
}

impl Model for Frame {
    ghost use Rattle.std.specs.Prelude.{◌≡◌, length, map};
    ghost use Rattle.frac_core.specs.declared.frac128.Frac128.{Frac128};
    ghost use Rattle.data_frame.specs.Tables.{TableOf};
    ghost use Rattle.data_frame.specs.Views.{stored_column};

    ghost Value = { TableOf Frac128 };

    ghost view = { λ f. record {
      names = f.names;
      records = f.records;
      columns = map stored_column f.columns.items;
    } };

    ghost invariant = { λ f. length f.columns.items ≡ length f.names };
}

impl Frame {
    /// The names of the columns, in order.
    pub fn names(&self) -> &[Text]
        ensures { result.now ≡ self.now.names }
    {
        self.names.as_slice()
    }

    /// The number of records.
    pub fn records(&self) -> u32
        ensures { result ≡ self.now.records }
    {
        self.records
    }

    /// The column of a name, and `None` exactly where no column has it.
    pub fn column(&self, name: &str) -> Option<Column<'_>>
        ensures column { option_map lent_column result ≡ column_named name.now self.now }
        ensures known { OnSome result (Contains self.now.names name.now) }
        ensures unknown { IfNone result (¬ (Contains self.now.names name.now)) }
    {
        let place = self.names.place(name)?;
        Some(self.columns[place].lend())
    }
}

// Adds the column of these cells, which are let go.
fn add_column(
    alloc: Global,
    stored: &mut Vec<ColumnCells>,
    cells: StringRecord,
) -> Result<(), AllocError>
    requires { length (fields_of cells) < 2 ^ 32 - 1 }
    ensures { OnOk result (map (λ s. exact_column (stored_column s)) stored.new.items
        ≡ map (λ s. exact_column (stored_column s)) stored.old.items ++ column_of (fields_of cells) ∷ []) }
{
    let column = read_column(alloc, &cells);
    drop(cells);
    stored.push(column?)?;
    Ok(())
}

// The columns of these cells, which are let go one after the other.
fn read_columns(alloc: Global, columns: Vec<StringRecord>) -> Result<Vec<ColumnCells>, AllocError>
    requires { All (λ cells. length (fields_of cells) < 2 ^ 32 - 1) columns.items }
    ensures { IfOk result (λ stored. map (λ s. exact_column (stored_column s)) stored.items
        ≡ map column_of (map fields_of columns.items)) }
{
    let mut stored = Vec::with_capacity(alloc, columns.len())?;
    for cells in columns {
        add_column(alloc, &mut stored, cells)?;
    }
    Ok(stored)
}

// The table of the records that a reader has left. The header is let go here, once for all ways out of the other function.
fn read_frame(alloc: Global, reader: &mut Reader<&[u8]>) -> Result<Frame, TableFault>
    requires reading { IsReading reader.old }
    requires small { length (unread reader.old) < 2 ^ 32 }
    ensures table { IfOk result
        (λ frame. table_of_records (left_of reader.old) ≡ Ok (exact_table frame)) }
    ensures fault { IfErr result (λ e. (e ≡ TableFault.OutOfMemory)
        ⊎ (table_of_records (left_of reader.old) ≡ Err e)) }
{
    let mut header = StringRecord::new(alloc);
    let frame = read_under(alloc, reader, &mut header);
    drop(header);
    frame
}

// The same table, with its header read into `header`.
fn read_under(
    alloc: Global,
    reader: &mut Reader<&[u8]>,
    header: &mut StringRecord,
) -> Result<Frame, TableFault>
    requires reading { IsReading reader.old }
    requires small { length (unread reader.old) < 2 ^ 32 }
    ensures table { IfOk result
        (λ frame. table_of_records (left_of reader.old) ≡ Ok (exact_table frame)) }
    ensures fault { IfErr result (λ e. (e ≡ TableFault.OutOfMemory)
        ⊎ (table_of_records (left_of reader.old) ≡ Err e)) }
{
    match next_row(reader, header)? {
        NextRecord::End => return Err(TableFault::NoHeader),
        NextRecord::NotText => return Err(TableFault::NotUtf8 { rec: 0 }),
        NextRecord::Row => {}
    }
    let names = read_names(alloc, header)?;
    let body = match read_rows(alloc, reader, header.len() as u32, set_aside(header)) {
        Ok(body) => body,
        Err(fault) => {
            drop(names);
            return Err(fault);
        }
    };
    match read_columns(alloc, body.columns) {
        Ok(columns) => Ok(Frame {
            names,
            records: body.records,
            columns,
        }),
        Err(_) => {
            drop(names);
            Err(TableFault::OutOfMemory)
        }
    }
}

/// Reads a table: a header and the records under it.
///
/// The answer is the table of the bytes, or their first fault, in the order that the crate's first
/// lines give; `OutOfMemory` alone may come at any step. In particular, bytes are read exactly
/// where their records are a table: all fields are UTF-8, the header has at most 1,024 of them and
/// distinct names that aren't empty, and at most 16,384 records of as many fields stand under it.
pub fn read_table(alloc: Global, bytes: &[u8]) -> Result<Frame, TableFault>
    requires { length bytes.now < 2 ^ 32 }
    ensures table { IfOk result (λ frame. table_of bytes.now ≡ Ok (exact_table frame)) }
    ensures fault { IfErr result (λ e. (e ≡ TableFault.OutOfMemory)
        ⊎ (table_of bytes.now ≡ Err e)) }
    ensures accepts { OnOk result (AreTable (records_of bytes.now)) }
    ensures accepted { AreTable (records_of bytes.now)
        → IfErr result (λ e. e ≡ TableFault.OutOfMemory) }
{
    let mut reader = open(alloc, bytes);
    read_frame(alloc, &mut reader)
}
