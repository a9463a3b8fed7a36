//! Dual values on a walk as numbers over the determinant and the quantile's second part.
ghost use Rattle.std.specs.Prelude.{◌≡◌, ◌<◌, ◌*ℤ◌, ◌≤ℤ◌, slice_index, unsigned_abs, IfOk, pos};
ghost use Rattle.basis_model.specs.Basis.{dual_value};
ghost use Rattle.whole_inverse.specs.Shares.{share};
ghost use Rattle.whole_inverse.specs.Squares.{inverse_of};
ghost use Rattle.whole_steps.specs.Quantiles.{IsQuantile, theta_of};
ghost use Rattle.whole_tableau.specs.Kept.{IsKept, wholes_of};

use frac_core::Exact;
use whole_inverse::Obstacle;
use whole_steps::Quantile;
use whole_tableau::WholeTableau;

/// The product, where it has 127 bits.
fn times(a: i128, b: i128) -> Result<i128, Obstacle>
    ensures { IfOk result (λ n. n ≡ a *ℤ b) }
{
    match a.checked_mul(b) {
        Some(n) => Ok(n),
        None => Err(Obstacle::TooWide),
    }
}

/// The determinant times the quantile's second part.
pub(crate) fn scale_number<F: Exact>(
    tableau: &WholeTableau<'_, F>,
    theta: Quantile<i128>,
) -> Result<i128, Obstacle>
    ensures { IfOk result (λ n. n ≡ tableau.now.square.determinant *ℤ theta.under) }
{
    let scale = times(tableau.determinant(), theta.under)?;
    Ok(scale)
}

/// The dual value at a position at the quantile.
pub(crate) fn dual_number<F: Exact>(
    tableau: &WholeTableau<'_, F>,
    theta: Quantile<i128>,
    position: u32,
) -> Result<i128, Obstacle>
    requires theta { IsQuantile theta }
    requires position { position < tableau.now.problem.columns }
    ensures { IfOk result (λ n. share n (pos (unsigned_abs (tableau.now.square.determinant *ℤ theta.under))) ≡ dual_value (wholes_of tableau.now) (slice_index tableau.now.rows) (inverse_of tableau.now.square) (theta_of theta) position) }
{
    let solution = tableau.solution();
    let constants = solution.constant.as_slice();
    let linears = solution.linear.as_slice();
    let number = theta.number(constants[position as usize], linears[position as usize])?;
    Ok(number)
}

/// The numerator of the inverse's entry of a column at a position.
pub(crate) fn entry_number<F: Exact>(
    tableau: &WholeTableau<'_, F>,
    column: u32,
    position: u32,
) -> i128
    requires column { column < tableau.now.problem.columns }
    requires position { position < tableau.now.problem.columns }
    ensures { share result tableau.now.square.determinant ≡ inverse_of tableau.now.square column position }
{
    let held = tableau.held();
    held.inverse.shape();
    let numerators = held.inverse.numerators(position);
    numerators[column as usize]
}

/// The same, over the determinant and the quantile's second part.
pub(crate) fn speed_number<F: Exact>(
    tableau: &WholeTableau<'_, F>,
    column: u32,
    theta: Quantile<i128>,
    position: u32,
) -> Result<i128, Obstacle>
    requires kept { IsKept F.value tableau.now }
    requires theta { IsQuantile theta }
    requires column { column < tableau.now.problem.columns }
    requires position { position < tableau.now.problem.columns }
    ensures { IfOk result (λ n. share n (pos (unsigned_abs (tableau.now.square.determinant *ℤ theta.under))) ≡ inverse_of tableau.now.square column position) }
{
    let entry = entry_number(tableau, column, position);
    let number = times(entry, theta.under)?;
    Ok(number)
}
