//! Penalty rows.

ghost use Rattle.std.specs.Prelude.{◌≡◌, ◌≤◌, ◌++◌, IfErr, IfOk, OnOk, length, map};
ghost use Rattle.std.specs.List.{flat_map};
ghost use Rattle.frac_core.specs.Values.{exact};
ghost use Rattle.design_matrix.specs.Lists.{each};
ghost use Rattle.tv_penalty.specs.Smoothings.{bend_entries as bend_entries_of, bend_row as bend_row_of, exact_penalty, part_names, placed as placed_of, rows_from, unit_row as unit_row_of, unit_rows};
ghost use Rattle.tv_penalty.specs.Views.{bend_seen, part_seen};

use crate::bends::Bend;
use crate::parts::{Part, with_columns};
use crate::{PenaltyFault, PenaltyRow};
use frac_core::{Exact, Frac128, List};
use std::alloc::{AllocError, Global};

// Entries from a place on, and 0 in all other columns.
fn placed(
    alloc: Global,
    columns: usize,
    before: usize,
    entries: &[Frac128],
) -> Result<Vec<Frac128>, AllocError>
    ensures { IfOk result (λ x. map exact x.items ≡ placed_of columns before (map exact entries.now)) }
{
    let mut x = vec![in alloc; Frac128::zero(); before]?;
    x.extend_from_slice(entries)?;
    let after = columns.saturating_sub(x.len());
    let zeros = vec![in alloc; Frac128::zero(); after]?;
    x.extend_from_slice(&zeros)?;
    Ok(x)
}

// The bend after a knot over the values at all knots.
fn bend_entries(
    alloc: Global,
    knots: usize,
    number: usize,
    bend: Bend,
) -> Result<Vec<Frac128>, AllocError>
    ensures { IfOk result (λ x. map exact x.items ≡ bend_entries_of knots number (bend_seen bend)) }
{
    placed(
        alloc,
        knots,
        number,
        &[bend.below, bend.at_knot, bend.above],
    )
}

/// Where the columns of a smooth stand among those of all smooths.
#[derive(Clone, Copy)]
struct Columns {
    /// The first knot of each smooth has no column.
    intercept: bool,
    /// The columns of all smooths.
    all: usize,
    /// Those of the smooths before this one.
    before: usize,
}

// The row of the bend of this number.
fn bend_row(
    alloc: Global,
    columns: Columns,
    part: &Part<'_>,
    number: usize,
    bend: Bend,
) -> Result<PenaltyRow, AllocError>
    ensures { IfOk result (λ r. exact_penalty r ≡ bend_row_of columns.intercept columns.all columns.before (part_seen part.now) number (bend_seen bend)) }
{
    let entries = bend_entries(alloc, part.knots.len(), number, bend)?;
    let x = placed(
        alloc,
        columns.all,
        columns.before,
        with_columns(columns.intercept, &entries),
    )?;
    Ok(PenaltyRow {
        x: List::from(x),
        lambda: part.smooth.lambda,
    })
}

// Adds the rows of a smooth.
fn put_rows(
    alloc: Global,
    columns: Columns,
    part: &Part<'_>,
    rows: &mut Vec<PenaltyRow>,
) -> Result<(), AllocError>
    ensures { OnOk result (map exact_penalty rows.new.items ≡ map exact_penalty rows.old.items
        ++ each (bend_row_of columns.intercept columns.all columns.before (part_seen part.now)) 0 (part_seen part.now).bends) }
{
    for (number, bend) in part.bends.iter().enumerate() {
        rows.push(bend_row(alloc, columns, part, number, *bend)?)?;
    }
    Ok(())
}

/// The penalty rows of smooths that have so many columns.
pub(crate) fn penalty_rows(
    alloc: Global,
    intercept: bool,
    all: usize,
    parts: &[Part<'_>],
) -> Result<Vec<PenaltyRow>, AllocError>
    requires { length (flat_map (part_names intercept) (map part_seen parts.now)) ≡ all }
    ensures { IfOk result (λ rows. map exact_penalty rows.items ≡ rows_from intercept all 0 (map part_seen parts.now)) }
{
    let mut rows = Vec::new(alloc);
    let mut before = 0;
    for part in parts {
        let columns = Columns {
            intercept,
            all,
            before,
        };
        put_rows(alloc, columns, part, &mut rows)?;
        before += with_columns(intercept, &part.knots).len();
    }
    Ok(rows)
}

fn unit_row(
    alloc: Global,
    columns: u32,
    column: u32,
    lambda: Frac128,
) -> Result<PenaltyRow, AllocError>
    ensures { IfOk result (λ r. exact_penalty r ≡ unit_row_of columns (exact lambda) column) }
{
    let x = placed(alloc, columns as usize, column as usize, &[Frac128::one()])?;
    Ok(PenaltyRow {
        x: List::from(x),
        lambda,
    })
}

/// Rows that penalise single coefficients: one for each column from the first on, in order, with the
/// entry 1 in that column and 0 in all others (the lasso penalty of Koenker 2005, section 4.9).
///
/// `first` is at most `columns`, and `lambda` is above 0. It refuses only for memory.
pub fn l1_rows(
    alloc: Global,
    columns: u32,
    first: u32,
    lambda: Frac128,
) -> Result<List<PenaltyRow>, PenaltyFault>
    requires { first ≤ columns }
    ensures rows { IfOk result (λ rows. map exact_penalty rows ≡ unit_rows columns first (exact lambda)) }
    ensures cause { IfErr result (λ fault. fault ≡ PenaltyFault.OutOfMemory) }
{
    let mut rows = Vec::new(alloc);
    for column in first..columns {
        rows.push(unit_row(alloc, columns, column, lambda)?)?;
    }
    Ok(List::from(rows))
}
