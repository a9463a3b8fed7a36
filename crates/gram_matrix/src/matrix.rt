//! The rows of the Gram matrix.
ghost use Rattle.std.specs.Prelude.{◌≡◌, ◌<◌, length, IfOk, IfErr};
ghost use Rattle.rational_laws.specs.Fraction.{rational};
ghost use Rattle.loss_model.specs.Problem.{sample, IsWellShaped};
ghost use Rattle.loss_model.specs.Quantities.{IsShortOf};
ghost use Rattle.rank_model.specs.Gram.{gram, IsGramOf};
ghost use Rattle.gram_matrix.specs.Grams.{IsGramSpill, IsGramEntrySpill, IsBeforeGram};
ghost use Rattle.gram_matrix.specs.GramRows.{IsGramRow, AreScaled, AreGramRows};

use crate::columns::scaled_columns;
use frac_core::{Exact, List};
use loss_model::{Problem, Quantity, Row, Short, Sign, Site, Spill, sum_of_products};
use std::alloc::Global;

/// The first rows of the Gram matrix, over the weighted columns.
#[derive(Drop)]
struct FirstRows<'a, F> {
    problem: &'a Problem<F>,
    scaled: &'a [List<F>],
    rows: &'a [Row<F>],
}

impl<'a, F: Exact> FirstRows<'a, F> {
    /// The entry for two columns: their products, added over the rows.
    fn product(&self, k: u32, l: u32) -> Result<F, Spill<F>>
        requires shaped { IsWellShaped self.now.problem.now }
        requires scaled { AreScaled F.value self.now.problem.now self.now.scaled.now }
        requires first { k < self.now.problem.now.columns }
        requires second { l < self.now.problem.now.columns }
        ensures exact { IfOk result (λ e. rational (F.value e) ≡ gram (sample F.value self.now.problem.now) k l) }
        ensures spill { IfErr result (IsGramEntrySpill F.value F.range (sample F.value self.now.problem.now) k l) }
    {
        let left = self.scaled[k as usize].as_slice();
        let right = self.scaled[l as usize].as_slice();
        let site = Site::new(Quantity::Gram, k, l, 0);
        sum_of_products(site, F::zero(), Sign::Plus, left, right)
    }

    /// An entry of the row after them; those before the diagonal stand in the rows above.
    fn entry(&self, l: u32) -> Result<F, Spill<F>>
        requires shaped { IsWellShaped self.now.problem.now }
        requires scaled { AreScaled F.value self.now.problem.now self.now.scaled.now }
        requires rows { AreGramRows F.value self.now.problem.now self.now.rows.now }
        requires more { length self.now.rows.now < self.now.problem.now.columns }
        requires column { l < self.now.problem.now.columns }
        ensures exact { IfOk result (λ e. rational (F.value e) ≡ gram (sample F.value self.now.problem.now) (length self.now.rows.now) l) }
        ensures spill { IfErr result (IsGramEntrySpill F.value F.range (sample F.value self.now.problem.now) (length self.now.rows.now) l) }
    {
        let k = self.rows.len();
        if (l as usize) < k {
            return Ok(self.rows[l as usize].x.as_slice()[k]);
        }
        self.product(k as u32, l)
    }

    /// The row after them.
    fn next(&self, alloc: Global) -> Result<Row<F>, Short<F>>
        requires shaped { IsWellShaped self.now.problem.now }
        requires scaled { AreScaled F.value self.now.problem.now self.now.scaled.now }
        requires rows { AreGramRows F.value self.now.problem.now self.now.rows.now }
        requires more { length self.now.rows.now < self.now.problem.now.columns }
        ensures row { IfOk result (IsGramRow F.value self.now.problem.now (length self.now.rows.now)) }
        ensures spill { IfErr result (IsShortOf (IsGramSpill F.value F.range (sample F.value self.now.problem.now))) }
    {
        let mut x = List::new(alloc);
        for l in 0..self.problem.columns {
            let entry = self.entry(l)?;
            x.add(entry)?;
        }
        Ok(Row {
            x,
            y: F::zero(),
            up0: F::zero(),
            up1: F::zero(),
            down0: F::zero(),
            down1: F::zero(),
        })
    }
}

/// All rows of the Gram matrix.
fn gram_rows<F: Exact>(
    alloc: Global,
    problem: &Problem<F>,
    scaled: &[List<F>],
) -> Result<List<Row<F>>, Short<F>>
    requires shaped { IsWellShaped problem.now }
    requires scaled { AreScaled F.value problem.now scaled.now }
    ensures rows { IfOk result (AreGramRows F.value problem.now) }
    ensures all { IfOk result (λ rows. length rows ≡ problem.now.columns) }
    ensures spill { IfErr result (IsShortOf (IsGramSpill F.value F.range (sample F.value problem.now))) }
{
    let mut rows = List::new(alloc);
    for _ in 0..problem.columns {
        let first = FirstRows {
            problem,
            scaled,
            rows: rows.as_slice(),
        };
        let row = first.next(alloc)?;
        rows.add(row)?;
    }
    Ok(rows)
}

/// A problem whose rows are those of the Gram matrix, in order, with the response 0 and no costs.
///
/// The entries of the columns are weighted first, column by column, and then the entries of the matrix are added; an
/// overflow is that of one of these operations.
pub fn gram_problem<F: Exact>(alloc: Global, problem: &Problem<F>) -> Result<Problem<F>, Short<F>>
    requires shaped { IsWellShaped problem.now }
    ensures shaped { IfOk result IsWellShaped }
    ensures gram { IfOk result (λ g. IsGramOf (sample F.value problem.now) (sample F.value g)) }
    ensures spill { IfErr result (IsShortOf (IsBeforeGram F.value F.range (sample F.value problem.now))) }
{
    let scaled = scaled_columns(alloc, problem)?;
    let rows = gram_rows(alloc, problem, scaled.as_slice())?;
    Ok(Problem {
        columns: problem.columns,
        rows,
    })
}
