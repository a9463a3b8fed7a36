//! A column of a table: of numbers where each of its cells is one or missing, else of texts.
ghost use Rattle.std.specs.Prelude.{◌≡◌, ◌-◌, ◌^◌, ◌<◌, true, false, drop, length, map, IfOk, MatchOption};
ghost use Rattle.std.specs.List.{list_all};
ghost use Rattle.csv.specs.Records.{fields_of};
ghost use Rattle.data_frame.specs.Cells.{column_of, is_numeric, kept};
ghost use Rattle.data_frame.specs.Views.{exact_column, lent_column, stored_column};

use crate::cell::{is_missing, is_numeric, read_cell};
use crate::records::text_at;
use csv::StringRecord;
use frac_core::{Frac128, NumberFault, Text};
use std::alloc::{AllocError, Global};

/// A column of a table, with a cell for each record.
#[derive(Clone, Copy)]
pub enum Column<'a> {
    /// Numbers, and none where the cell is missing.
    Numbers(&'a [Option<Frac128>]),
    /// Texts as they stand, and none where the cell is missing.
    Factor(&'a [Option<Text>]),
    /// A column of numbers, the first of which that is too wide stands in this record.
    TooWide { rec: u32 },
}

/// A column that is stored.
#[derive(Drop)]
pub(crate) enum ColumnCells {
    Numbers(Vec<Option<Frac128>>),
    Factor(Vec<Option<Text>>),
    TooWide { rec: u32 },
}

impl ColumnCells {
    pub(crate) fn lend(&self) -> Column<'_>
        ensures { lent_column result ≡ stored_column self.now }
    {
        match self {
            ColumnCells::Numbers(values) => Column::Numbers(values.as_slice()),
            ColumnCells::Factor(texts) => Column::Factor(texts.as_slice()),
            ColumnCells::TooWide { rec } => Column::TooWide { rec: *rec },
        }
    }
}

// Whether each cell from a place on fits a column of numbers.
fn are_numeric(cells: &StringRecord, from: usize) -> bool
    ensures { result ≡ list_all is_numeric (drop from (fields_of cells.now)) }
{
    for i in from..cells.len() {
        if !is_numeric(text_at(cells, i)) {
            return false;
        }
    }
    true
}

// The column of these cells where it is numeric.
fn read_numbers(alloc: Global, cells: &StringRecord) -> Result<Option<ColumnCells>, AllocError>
    requires { length (fields_of cells.now) < 2 ^ 32 - 1 }
    ensures { IfOk result (λ found. MatchOption found
        (list_all is_numeric (fields_of cells.now) ≡ false)
        (λ column. exact_column (stored_column column) ≡ column_of (fields_of cells.now))) }
{
    let mut values = Vec::with_capacity(alloc, cells.len())?;
    for i in 0..cells.len() {
        match read_cell(text_at(cells, i)) {
            Ok(value) => values.push(value)?,
            Err(NumberFault::NotANumber) => return Ok(None),
            Err(NumberFault::TooWide) => {
                let rec = i as u32 + 1;
                return Ok(are_numeric(cells, i + 1).then_some(ColumnCells::TooWide { rec }));
            }
        }
    }
    Ok(Some(ColumnCells::Numbers(values)))
}

// The cell as it stands, and none where it is missing.
fn keep(alloc: Global, cell: &str) -> Result<Option<Text>, AllocError>
    ensures { IfOk result (λ text. text ≡ kept cell.now) }
{
    if is_missing(cell) {
        return Ok(None);
    }
    match Text::new(alloc, cell) {
        Ok(text) => Ok(Some(text)),
        Err(_) => Err(AllocError),
    }
}

fn read_texts(alloc: Global, cells: &StringRecord) -> Result<Vec<Option<Text>>, AllocError>
    ensures { IfOk result (λ texts. texts.items ≡ map kept (fields_of cells.now)) }
{
    let mut texts = Vec::with_capacity(alloc, cells.len())?;
    for i in 0..cells.len() {
        texts.push(keep(alloc, text_at(cells, i))?)?;
    }
    Ok(texts)
}

// The column of these cells.
pub(crate) fn read_column(alloc: Global, cells: &StringRecord) -> Result<ColumnCells, AllocError>
    requires { length (fields_of cells.now) < 2 ^ 32 - 1 }
    ensures { IfOk result (λ column.
        exact_column (stored_column column) ≡ column_of (fields_of cells.now)) }
{
    match read_numbers(alloc, cells)? {
        Some(column) => Ok(column),
        None => Ok(ColumnCells::Factor(read_texts(alloc, cells)?)),
    }
}
