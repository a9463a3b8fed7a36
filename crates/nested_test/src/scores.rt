//! The scores of tested columns.
ghost use Rattle.std.specs.Prelude.{◌≡◌, ◌<◌, All, length, IfOk};
ghost use Rattle.rational_laws.specs.Fraction.{rational};
ghost use Rattle.loss_model.specs.Problem.{value_at, sample, IsWellShaped};
ghost use Rattle.nested_test.specs.Nested.{column_score as column_score_of, AreScores};

use frac_core::{Exact, List, OutOfMemory};
use gram_inverse::{inner_product, weighted_column};
use loss_model::Problem;
use ratio::Ratio;
use std::alloc::Global;

/// The scores of all tested columns, in their order.
pub(crate) fn scores<F: Exact>(
    alloc: Global,
    full: &Problem<F>,
    tested: &[u32],
    wilcoxon: &[Ratio],
) -> Result<List<Ratio>, OutOfMemory>
    requires shaped { IsWellShaped full.now }
    requires tested { All (λ k. k < full.now.columns) tested.now }
    requires scored { length wilcoxon.now ≡ length full.now.rows }
    ensures { IfOk result (AreScores F.value full.now tested.now (value_at (λ x. x) wilcoxon.now)) }
{
    let mut made = List::new(alloc);
    for column in tested {
        let score = column_score(alloc, full, *column, wilcoxon)?;
        made.add(score)?;
    }
    Ok(made)
}

// The score of a column: its weighted entries times the scores of the rows, added.
fn column_score<F: Exact>(
    alloc: Global,
    full: &Problem<F>,
    column: u32,
    wilcoxon: &[Ratio],
) -> Result<Ratio, OutOfMemory>
    requires shaped { IsWellShaped full.now }
    requires column { column < full.now.columns }
    requires scored { length wilcoxon.now ≡ length full.now.rows }
    ensures { IfOk result (λ s. rational s ≡ column_score_of (sample F.value full.now) (value_at (λ x. x) wilcoxon.now) column) }
{
    let weighted = weighted_column(alloc, full, column)?;
    let score = inner_product(alloc, weighted.as_slice(), wilcoxon)?;
    Ok(score)
}
