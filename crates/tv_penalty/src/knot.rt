//! The knots of a smooth.

ghost use Rattle.std.specs.Prelude.{◌≡◌, ◌≤◌, ◌⊎◌, ◌-◌, length, true, false, None, IfErr, IfOk, IfNone, IfSome, OnOk};
ghost use Rattle.std.specs.List.{filter_map};
ghost use Rattle.frac_core.specs.Values.{exact};
ghost use Rattle.design_matrix.specs.Cells.{cell_of, column_of, number_in};
ghost use Rattle.design_matrix.specs.CodedVariable.{is_text};
ghost use Rattle.design_matrix.specs.Levels.{levels_of, number_order};
ghost use Rattle.tv_penalty.specs.Faults.{HasKnotsCause, knots_fault};
ghost use Rattle.tv_penalty.specs.Knots.{cell_at, cells_of, knots_in, knots_of as knots_of_smooth, numbers_of};
ghost use Rattle.tv_penalty.specs.Views.{AreAscending};

use crate::PenaltyFault;
use data_frame::{Column, Frame};
use design_matrix::laws::distinct_levels;
use design_matrix::{Design, DesignRow};
use formula_parser::Smooth;
use frac_core::{Exact, Frac128, List, Text};
use std::alloc::{AllocError, Global};

// The cells of a column of numbers; none where the column is a factor, or where there is no such
// column.
#[tactic(auto, unfolding(design_matrix::specs::Cells::column_of))]
fn numbers<'a>(frame: &'a Frame, name: &str) -> Option<&'a [Option<Frac128>]>
    ensures factor { IfNone result (is_text (column_of frame.now name.now) ≡ true) }
    ensures numeric { IfSome result (λ cells. is_text (column_of frame.now name.now) ≡ false) }
    ensures cells { IfSome result (λ cells. cells.now ≡ numbers_of (column_of frame.now name.now)) }
{
    match frame.column(name) {
        Some(Column::Numbers(cells)) => Some(cells),
        Some(Column::TooWide { .. }) => Some(&[]),
        Some(Column::Factor(_)) => None,
        None => None,
    }
}

// The number of a record, which is counted from 1.
fn number_of(cells: &[Option<Frac128>], rec: u32) -> Option<Frac128>
    ensures { result ≡ cell_of cells.now (rec - 1) }
{
    match cells.get(rec.saturating_sub(1) as usize) {
        Some(cell) => *cell,
        None => None,
    }
}

// The numbers of the records of rows.
fn row_numbers(
    alloc: Global,
    cells: &[Option<Frac128>],
    rows: &[DesignRow],
) -> Result<Vec<Frac128>, AllocError>
    ensures { IfOk result (λ v. v.items ≡ filter_map (cell_at cells.now) rows.now) }
{
    rows.iter()
        .filter_map(|row| number_of(cells, row.rec))
        .collect(alloc)
}

/// The number of a record, and 0 where its cell is missing.
pub(crate) fn number_or_zero(cells: &[Option<Frac128>], rec: u32) -> Frac128
    ensures { exact result ≡ number_in cells.now (rec - 1) }
{
    match number_of(cells, rec) {
        Some(number) => number,
        None => Frac128::zero(),
    }
}

// The distinct ones of these numbers, ascending.
fn distinct(mut numbers: Vec<Frac128>) -> Vec<Frac128>
    ensures levels { result.items ≡ levels_of number_order numbers.items }
    ensures ascending { AreAscending result.items }
{
    distinct_levels();
    numbers.sort_unstable_by(|left, right| Exact::compare(*left, *right));
    numbers.dedup();
    numbers
}

#[tactic(auto, unfolding(crate::specs::Knots::knots_in))]
fn knots_at(
    alloc: Global,
    cells: &[Option<Frac128>],
    rows: &[DesignRow],
) -> Result<Vec<Frac128>, AllocError>
    ensures knots { IfOk result (λ v. v.items ≡ knots_in cells.now rows.now) }
    ensures ascending { IfOk result (λ v. AreAscending v.items) }
{
    Ok(distinct(row_numbers(alloc, cells, rows)?))
}

fn not_numeric(alloc: Global, smooth: &Smooth) -> PenaltyFault
    ensures { (result ≡ PenaltyFault.OutOfMemory) ⊎ (result ≡ PenaltyFault.NotNumeric smooth.now.name) }
{
    match Text::new(alloc, smooth.name.as_str()) {
        Ok(name) => PenaltyFault::NotNumeric { name },
        Err(_) => PenaltyFault::OutOfMemory,
    }
}

fn too_few(alloc: Global, smooth: &Smooth) -> PenaltyFault
    ensures { (result ≡ PenaltyFault.OutOfMemory) ⊎ (result ≡ PenaltyFault.TooFewKnots smooth.now.name) }
{
    match Text::new(alloc, smooth.name.as_str()) {
        Ok(name) => PenaltyFault::TooFewKnots { name },
        Err(_) => PenaltyFault::OutOfMemory,
    }
}

/// The numbers of a smooth's column, and its knots at the records of rows.
#[derive(Drop)]
pub(crate) struct Knotted<'a> {
    pub(crate) cells: &'a [Option<Frac128>],
    pub(crate) knots: Vec<Frac128>,
}

/// A smooth's column with its knots.
#[tactic(auto, unfolding(crate::specs::Faults::knots_fault))]
pub(crate) fn smooth_knots<'a>(
    alloc: Global,
    frame: &'a Frame,
    rows: &[DesignRow],
    smooth: &Smooth,
) -> Result<Knotted<'a>, PenaltyFault>
    ensures cells { IfOk result (λ k. k.cells.now ≡ cells_of frame.now smooth.now) }
    ensures knots { IfOk result (λ k. k.knots.items ≡ knots_of_smooth frame.now rows.now smooth.now) }
    ensures ascending { IfOk result (λ k. AreAscending k.knots.items) }
    ensures many { IfOk result (λ k. 3 ≤ length k.knots.items) }
    ensures sound { OnOk result (knots_fault frame.now rows.now smooth.now ≡ None) }
    ensures cause { IfErr result (HasKnotsCause frame.now rows.now smooth.now) }
{
    let cells = match numbers(frame, smooth.name.as_str()) {
        Some(cells) => cells,
        None => return Err(not_numeric(alloc, smooth)),
    };
    let knots = knots_at(alloc, cells, rows)?;
    if knots.len() < 3 {
        return Err(too_few(alloc, smooth));
    }
    Ok(Knotted { cells, knots })
}

/// The knots of a smooth: the distinct values of its column at the records of the design, ascending.
/// The design is one of this table, by a formula with this smooth; so no record of it misses the
/// column's cell.
///
/// `NotNumeric` comes exactly where the column is a factor, and `TooFewKnots` exactly where there are
/// fewer than 3 values. Want of memory may come at any step.
pub fn knots(
    alloc: Global,
    frame: &Frame,
    design: &Design,
    smooth: &Smooth,
) -> Result<List<Frac128>, PenaltyFault>
    ensures knots { IfOk result (λ ks. ks ≡ knots_of_smooth frame.now design.now.rows smooth.now) }
    ensures sound { OnOk result (knots_fault frame.now design.now.rows smooth.now ≡ None) }
    ensures cause { IfErr result (HasKnotsCause frame.now design.now.rows smooth.now) }
{
    match smooth_knots(alloc, frame, design.rows.as_slice(), smooth) {
        Ok(found) => Ok(List::from(found.knots)),
        Err(fault) => Err(fault),
    }
}
