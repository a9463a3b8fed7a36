//! The weighted columns of a problem.
ghost use Rattle.std.specs.Prelude.{◌≡◌, ℕ, ◌<◌, length, IfOk};
ghost use Rattle.rational_laws.specs.Fraction.{rational};
ghost use Rattle.rational_laws.specs.Rational.{◌*ℚ◌};
ghost use Rattle.loss_model.specs.Problem.{value_at, sample, IsWellShaped};
ghost use Rattle.gram_matrix.specs.Grams.{scaled};
ghost use Rattle.gram_inverse.specs.Columns.{AreWeighted};

use frac_core::{Exact, List, OutOfMemory};
use loss_model::Problem;
use ratio::Ratio;
use std::alloc::Global;

// a * x
fn times<F: Exact>(alloc: Global, a: &Ratio, x: F) -> Result<Ratio, OutOfMemory>
    ensures { IfOk result (λ r. rational r ≡ rational a.now *ℚ rational (F.value x)) }
{
    let factor = Ratio::widen(alloc, x)?;
    let product = a.mul(alloc, &factor);
    drop(factor);
    product
}

// An entry times the weight of its row.
fn weighted_entry<F: Exact>(
    alloc: Global,
    problem: &Problem<F>,
    row: usize,
    column: u32,
) -> Result<Ratio, OutOfMemory>
    requires shaped { IsWellShaped problem.now }
    requires row { row < length problem.now.rows }
    requires column { column < problem.now.columns }
    ensures { IfOk result (λ e. rational e ≡ scaled (sample F.value problem.now) row column) }
{
    let chosen = &problem.rows.as_slice()[row];
    let entry = chosen.x.as_slice()[column as usize];
    let weight = Ratio::widen(alloc, chosen.up1)?;
    let weighted = times(alloc, &weight, entry);
    drop(weight);
    weighted
}

/// The entries of a column, each times the weight of its row, which is its `up1`.
pub fn weighted_column<F: Exact>(
    alloc: Global,
    problem: &Problem<F>,
    column: u32,
) -> Result<List<Ratio>, OutOfMemory>
    requires shaped { IsWellShaped problem.now }
    requires column { column < problem.now.columns }
    ensures size { IfOk result (λ made. length made ≡ length problem.now.rows) }
    ensures each { IfOk result (λ made. (i : ℕ) → i < length problem.now.rows → value_at (λ x. x) made i ≡ scaled (sample F.value problem.now) i column) }
{
    let mut made = List::new(alloc);
    for row in 0..problem.rows.as_slice().len() {
        let entry = weighted_entry(alloc, problem, row, column)?;
        made.add(entry)?;
    }
    Ok(made)
}

/// All columns so.
pub(crate) fn weighted_columns<F: Exact>(
    alloc: Global,
    problem: &Problem<F>,
) -> Result<List<List<Ratio>>, OutOfMemory>
    requires shaped { IsWellShaped problem.now }
    ensures { IfOk result (AreWeighted F.value problem.now) }
{
    let mut made = List::new(alloc);
    for column in 0..problem.columns {
        let entries = weighted_column(alloc, problem, column)?;
        made.add(entries)?;
    }
    Ok(made)
}
