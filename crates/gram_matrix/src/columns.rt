//! The weighted columns of a problem.
ghost use Rattle.std.specs.Prelude.{◌≡◌, ℕ, ◌<◌, length, IfOk, IfErr};
ghost use Rattle.rational_laws.specs.Fraction.{rational};
ghost use Rattle.loss_model.specs.Problem.{value_at, sample, IsWellShaped};
ghost use Rattle.loss_model.specs.Quantities.{IsShortOf};
ghost use Rattle.loss_model.specs.Spill.{AtSome};
ghost use Rattle.gram_matrix.specs.Grams.{scaled, IsScaledSpill, IsScaledEntrySpill};
ghost use Rattle.gram_matrix.specs.GramRows.{AreScaled};

use frac_core::{Exact, List};
use loss_model::{Problem, Quantity, Short, Site, Spill, times_at};
use std::alloc::Global;

// An entry times the weight of its row.
fn scaled_entry<F: Exact>(problem: &Problem<F>, row: u32, column: u32) -> Result<F, Spill<F>>
    requires shaped { IsWellShaped problem.now }
    requires row { row < length problem.now.rows }
    requires column { column < problem.now.columns }
    ensures exact { IfOk result (λ e. rational (F.value e) ≡ scaled (sample F.value problem.now) row column) }
    ensures spill { IfErr result (IsScaledEntrySpill F.value F.range (sample F.value problem.now) row column) }
{
    let chosen = &problem.rows.as_slice()[row as usize];
    let site = Site::new(Quantity::ScaledEntry, row, column, 1);
    let entry = times_at(site, chosen.up1, chosen.x.as_slice()[column as usize])?;
    Ok(entry)
}

/// The entries of a column, each times the weight of its row, which is its `up1`.
///
/// An overflow is that of one of these products.
pub fn scaled_column<F: Exact>(
    alloc: Global,
    problem: &Problem<F>,
    column: u32,
) -> Result<List<F>, Short<F>>
    requires shaped { IsWellShaped problem.now }
    requires column { column < problem.now.columns }
    ensures size { IfOk result (λ made. length made ≡ length problem.now.rows) }
    ensures each { IfOk result (λ made. (i : ℕ) → i < length problem.now.rows → value_at F.value made i ≡ scaled (sample F.value problem.now) i column) }
    ensures spill { IfErr result (IsShortOf (λ s. AtSome (length problem.now.rows) (λ i. IsScaledEntrySpill F.value F.range (sample F.value problem.now) i column s))) }
{
    let mut made = List::new(alloc);
    for row in 0..problem.rows.as_slice().len() as u32 {
        let entry = scaled_entry(problem, row, column)?;
        made.add(entry)?;
    }
    Ok(made)
}

/// All columns so.
pub(crate) fn scaled_columns<F: Exact>(
    alloc: Global,
    problem: &Problem<F>,
) -> Result<List<List<F>>, Short<F>>
    requires shaped { IsWellShaped problem.now }
    ensures scaled { IfOk result (AreScaled F.value problem.now) }
    ensures spill { IfErr result (IsShortOf (IsScaledSpill F.value F.range (sample F.value problem.now))) }
{
    let mut made = List::new(alloc);
    for column in 0..problem.columns {
        let entries = scaled_column(alloc, problem, column)?;
        made.add(entries)?;
    }
    Ok(made)
}
