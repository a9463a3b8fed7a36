//! Columns and their cells.

ghost use Rattle.std.specs.Prelude.{◌≡◌, is_some, option_map};
ghost use Rattle.frac_core.specs.Values.{exact};
ghost use Rattle.data_frame.specs.Views.{lent_column};
ghost use Rattle.design_matrix.specs.Cells.{cell_of, column_of, is_present, number_at, number_in};

use data_frame::{Column, Frame};
use frac_core::{Exact, Frac128};

/// The column of a name; one that the table hasn't is a factor without cells.
#[tactic(auto, unfolding(crate::specs::Cells::column_of))]
pub(crate) fn column<'a>(frame: &'a Frame, name: &str) -> Column<'a>
    ensures { lent_column result ≡ column_of frame.now name.now }
{
    match frame.column(name) {
        Some(column) => column,
        None => Column::Factor(&[]),
    }
}

/// The cell of a record, where it isn't missing. Records are counted from 0 here.
pub(crate) fn cell<'a, T>(cells: &'a [Option<T>], index: u32) -> Option<&'a T>
    ensures { option_map (λ c. c.now) result ≡ cell_of cells.now index }
{
    match cells.get(index as usize) {
        Some(found) => found.as_ref(),
        None => None,
    }
}

/// Whether the cell of a record isn't missing.
pub(crate) fn has_value(column: &Column<'_>, index: u32) -> bool
    ensures { result ≡ is_present (lent_column column.now) index }
{
    match *column {
        Column::Numbers(cells) => cell(cells, index).is_some(),
        Column::Factor(cells) => cell(cells, index).is_some(),
        Column::TooWide { .. } => false,
    }
}

/// The number of a record, and 0 where there is none.
pub(crate) fn number(cells: &[Option<Frac128>], index: u32) -> Frac128
    ensures { exact result ≡ number_in cells.now index }
{
    match cell(cells, index) {
        Some(number) => *number,
        None => Frac128::zero(),
    }
}

/// The number of a record in a column, and 0 where there is none.
pub(crate) fn number_of(column: &Column<'_>, index: u32) -> Frac128
    ensures { exact result ≡ number_at (lent_column column.now) index }
{
    match *column {
        Column::Numbers(cells) => number(cells, index),
        Column::Factor(_) => Frac128::zero(),
        Column::TooWide { .. } => Frac128::zero(),
    }
}
