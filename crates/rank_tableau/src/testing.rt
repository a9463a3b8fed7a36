//! The test of a column: the factors that project it on the others, and the bound of the square of its statistic.
ghost use Rattle.std.specs.Prelude.{◌≡◌, ◌<◌, ◌≤◌, length, IfOk, pos};
ghost use Rattle.rational_laws.specs.Fraction.{rational};
ghost use Rattle.rational_laws.specs.Rational.{whole};
ghost use Rattle.loss_model.specs.Sample.{Sample};
ghost use Rattle.loss_model.specs.Strict.{◌<ℚ◌};
ghost use Rattle.rank_model.specs.Restricted.{IsProjection, squared_length, rank_bound};
ghost use Rattle.whole_inverse.specs.Shares.{share, share_at};
ghost use Rattle.whole_tableau.specs.Kept.{IsKept, wholes_of};
ghost use Rattle.gram_check.specs.Equations.{HasGram};
ghost use Rattle.gram_check.specs.Sizes.{IsSquare};
ghost use Rattle.rank_tableau.specs.Tests.{IsColumnTest};

use crate::bound::square_bound;
use crate::reach::Square;
use frac_core::{Exact, List};
use gram_check::{Factors, factor_values, factors_of, length_of};
use ratio::{Integer, Ratio};
use std::alloc::Global;
use whole_inverse::Obstacle;
use whole_rows::Factor;
use whole_steps::Quantile;
use whole_tableau::WholeTableau;

/// The factors of the problem's columns, and the bound of the square for the whole rows.
#[derive(Drop)]
pub struct ColumnTest {
    pub factors: List<Ratio>,
    pub reach: Square,
}

/// The bound of the square, by what the factors leave of the column.
fn reach_of<F: Exact>(
    alloc: Global,
    gram: &[List<Integer>],
    column: usize,
    factors: &Factors,
    tau: F,
    crit: F,
) -> Result<Square, Obstacle>
    requires square { IsSquare (length gram.now) gram.now }
    requires column { column < length gram.now }
    requires size { length factors.now.numerators ≡ length gram.now }
    requires positive { 1 ≤ factors.now.denominator }
    ensures under { IfOk result (λ s. 1 ≤ s.under) }
    ensures positive { let f = factors.now in let c = share_at (pos f.denominator) f.numerators in
        IfOk result (λ s. (p : Sample) → HasGram p gram.now → IsProjection p column c → whole (pos 0) <ℚ squared_length p column c) }
    ensures bound { let f = factors.now in let c = share_at (pos f.denominator) f.numerators in
        IfOk result (λ s. (p : Sample) → HasGram p gram.now → IsProjection p column c → share (pos s.over) (pos s.under) ≡ rank_bound (rational (F.value tau)) (rational (F.value crit)) (squared_length p column c)) }
{
    let quantile = Quantile::<i128>::of(tau)?;
    let critical = Quantile::<i128>::of(crit)?;
    let left = length_of(alloc, gram, column, factors)?;
    if left.is_negative() {
        return Err(Obstacle::TooWide);
    }
    if left.size().is_zero() {
        return Err(Obstacle::TooWide);
    }
    let most = Factor {
        over: critical.over,
        under: critical.under,
    };
    let part = Factor {
        over: quantile.over,
        under: quantile.under,
    };
    let square = square_bound(alloc, most, part, &left, &factors.denominator)?;
    Ok(square)
}

/// The test of a column of the problem of a basis in whole numbers, by the Gram matrix of its whole rows.
pub fn column_test<F: Exact>(
    alloc: Global,
    tableau: &WholeTableau<'_, F>,
    gram: &[List<Integer>],
    column: u32,
    tau: F,
    crit: F,
) -> Result<ColumnTest, Obstacle>
    requires kept { IsKept F.value tableau.now }
    requires square { IsSquare (length gram.now) gram.now }
    requires gram { HasGram (wholes_of tableau.now) gram.now }
    requires column { column < tableau.now.problem.columns }
    ensures { IfOk result (IsColumnTest F.value tableau.now column (rational (F.value tau)) (rational (F.value crit))) }
{
    let scales = tableau.setting().wholes.factors.as_slice();
    let found = factors_of(alloc, gram, column as usize)?;
    let reach = reach_of(alloc, gram, column as usize, &found, tau, crit)?;
    let factors = factor_values(alloc, &found, scales, column as usize)?;
    Ok(ColumnTest { factors, reach })
}
