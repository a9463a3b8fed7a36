//! The statistic of nested models.
ghost use Rattle.std.specs.Prelude.{◌≡◌, ℕ, ◌<◌, length, slice_index, IfOk, pos};
ghost use Rattle.rational_laws.specs.Fraction.{rational};
ghost use Rattle.rational_laws.specs.Rational.{◌*ℚ◌, whole};
ghost use Rattle.loss_model.specs.Dual.{IsDataRow};
ghost use Rattle.loss_model.specs.FullRank.{HasFullRank};
ghost use Rattle.loss_model.specs.Problem.{value_at, sample, IsWellShaped};
ghost use Rattle.nested_test.specs.Nested.{column_score, AreScores, IsNestedStatistic};
ghost use Rattle.nested_test.specs.Pairs.{pair_of, sum_of_row, sum_of_all, ArePairs};
ghost use Rattle.nested_test.specs.Restricted.{AreTested};

use crate::scores::scores;
use frac_core::{Exact, List, OutOfMemory};
use gram_inverse::GramInverse;
use loss_model::Problem;
use ratio::{Ratio, sum};
use std::alloc::Global;

/// The scores of the tested columns, in their order, and the statistic.
#[derive(Drop)]
pub struct NestedStatistic {
    pub scores: List<Ratio>,
    pub statistic: Ratio,
}

/// The scores of tested columns and the statistic, by Wilcoxon scores of the rows of a problem without these columns.
///
/// The score of a column is the sum of its weighted entries times the scores of the rows. The statistic is 12 times the sum
/// of a score times the entry of the inverse of the Gram matrix of all columns times another score, over all ordered pairs
/// of tested columns. The rows are data rows, the columns independent, and the tested ones ascend.
///
/// All numbers are of any size, so it is refused only where no memory is found.
pub fn nested<F: Exact>(
    alloc: Global,
    full: &Problem<F>,
    tested: &[u32],
    wilcoxon: &[Ratio],
) -> Result<NestedStatistic, OutOfMemory>
    requires shaped { IsWellShaped full.now }
    requires data { (i : ℕ) → i < length full.now.rows → IsDataRow (sample F.value full.now) i }
    requires rank { HasFullRank (sample F.value full.now) }
    requires tested { AreTested full.now.columns tested.now }
    requires scored { length wilcoxon.now ≡ length full.now.rows }
    ensures scores { IfOk result (λ t. AreScores F.value full.now tested.now (value_at (λ x. x) wilcoxon.now) t.scores) }
    ensures statistic { let p = sample F.value full.now in let b = value_at (λ x. x) wilcoxon.now in
        IfOk result (λ t. IsNestedStatistic p (slice_index tested.now) (length tested.now) (column_score p b) (rational t.statistic)) }
{
    let inverse = GramInverse::new(alloc, full)?;
    let scores = scores(alloc, full, tested, wilcoxon)?;
    let pairs = Pairs {
        inverse: &inverse,
        tested,
        scores: scores.as_slice(),
    };
    let statistic = pairs.statistic(alloc)?;
    Ok(NestedStatistic { scores, statistic })
}

// The pairs of tested columns with their scores, by the inverse of the Gram matrix.
#[derive(Drop)]
struct Pairs<'a> {
    inverse: &'a GramInverse,
    tested: &'a [u32],
    scores: &'a [Ratio],
}

impl<'a> Pairs<'a> {
    // 12 times the sum of all pairs.
    fn statistic(&self, alloc: Global) -> Result<Ratio, OutOfMemory>
        requires { ArePairs self.now }
        ensures { IfOk result (λ z. rational z ≡ whole (pos 12) *ℚ sum_of_all self.now) }
    {
        let mut sums = List::new(alloc);
        for j in 0..self.tested.len() {
            let row = self.row(alloc, j)?;
            sums.add(row)?;
        }
        let all = sum(alloc, sums.as_slice())?;
        let twelve = Ratio::whole(alloc, 12)?;
        let statistic = twelve.mul(alloc, &all)?;
        Ok(statistic)
    }

    // The sum of the pairs of a first column. It is added by halves, since its numbers may be long.
    fn row(&self, alloc: Global, j: usize) -> Result<Ratio, OutOfMemory>
        requires pairs { ArePairs self.now }
        requires within { j < length self.now.tested.now }
        ensures { IfOk result (λ z. rational z ≡ sum_of_row self.now j) }
    {
        let mut terms = List::new(alloc);
        for m in 0..self.tested.len() {
            let term = self.pair(alloc, j, m)?;
            terms.add(term)?;
        }
        let row = sum(alloc, terms.as_slice())?;
        Ok(row)
    }

    // The term of a pair: the first score times the entry of the inverse, times the second score.
    fn pair(&self, alloc: Global, j: usize, m: usize) -> Result<Ratio, OutOfMemory>
        requires pairs { ArePairs self.now }
        requires first { j < length self.now.tested.now }
        requires second { m < length self.now.tested.now }
        ensures { IfOk result (λ z. rational z ≡ pair_of self.now j m) }
    {
        let factor = self.inverse.entry(self.tested[j], self.tested[m]);
        let weighted = self.scores[j].mul(alloc, factor)?;
        let product = weighted.mul(alloc, &self.scores[m])?;
        Ok(product)
    }
}
