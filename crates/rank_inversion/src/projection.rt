//! The projection of a column on the others.
ghost use Rattle.std.specs.Prelude.{◌≡◌, ◌≢◌, ℕ, ◌<◌, length, pos, IfOk, IfErr};
ghost use Rattle.rational_laws.specs.Fraction.{rational};
ghost use Rattle.rational_laws.specs.Rational.{inverse as reciprocal, whole};
ghost use Rattle.loss_model.specs.Strict.{◌<ℚ◌};
ghost use Rattle.loss_model.specs.Problem.{value_at, sample};
ghost use Rattle.loss_model.specs.Quantities.{IsShortOf};
ghost use Rattle.loss_model.specs.Spill.{AtSome};
ghost use Rattle.basis_inverse.specs.Square.{inverse_entry};
ghost use Rattle.rank_model.specs.Restricted.{IsProjection, squared_length};
ghost use Rattle.rank_model.specs.Gram.{projection_of};
ghost use Rattle.rank_inversion.specs.Grams.{IsGramInverse, IsLengthSpill, IsFactorSpill, IsProjectingSpill};

use basis_inverse::Inverse;
use frac_core::{Exact, List};
use loss_model::{Problem, Quantity, Short, Site, Spill, over_at};
use std::alloc::Global;

/// A column as the others project it: the factors, one for each column and 0 at the column itself, and
/// the squared length of what they leave of it, all by the weights of the rows.
#[derive(Drop)]
pub struct Projected<F> {
    pub factors: List<F>,
    pub length: F,
}

/// One over the diagonal entry of a column.
fn length_at<F: Exact>(inverse: &Inverse<F>, column: u32) -> Result<F, Spill<F>>
    requires within { column < length inverse.now.columns }
    requires some { inverse_entry F.value inverse.now column column ≢ whole (pos 0) }
    ensures exact { IfOk result (λ q. rational (F.value q) ≡ reciprocal (inverse_entry F.value inverse.now column column)) }
    ensures spill { IfErr result (IsLengthSpill F.value F.range (inverse_entry F.value inverse.now) column) }
{
    let site = Site::new(Quantity::SquaredLength, column, 0, 1);
    let length = over_at(site, F::one(), inverse.entry(column, column))?;
    Ok(length)
}

/// The factor of a column: its negated entry over the diagonal one, and 0 for the column itself.
fn factor<F: Exact>(inverse: &Inverse<F>, column: u32, other: u32) -> Result<F, Spill<F>>
    requires within { column < length inverse.now.columns }
    requires other_within { other < length inverse.now.columns }
    requires some { inverse_entry F.value inverse.now column column ≢ whole (pos 0) }
    ensures exact { IfOk result (λ c. rational (F.value c) ≡ projection_of (inverse_entry F.value inverse.now) column other) }
    ensures spill { IfErr result (λ s. (other ≢ column) × IsFactorSpill F.value F.range (inverse_entry F.value inverse.now) column other s) }
{
    if other == column {
        return Ok(F::zero());
    }
    let site = Site::new(Quantity::Projection, other, 0, 1);
    let entry = inverse.entry(other, column).neg();
    let factor = over_at(site, entry, inverse.entry(column, column))?;
    Ok(factor)
}

/// The factors by column.
fn factors<F: Exact>(
    alloc: Global,
    inverse: &Inverse<F>,
    columns: u32,
    column: u32,
) -> Result<List<F>, Short<F>>
    requires size { length inverse.now.columns ≡ columns }
    requires within { column < columns }
    requires some { inverse_entry F.value inverse.now column column ≢ whole (pos 0) }
    ensures size { IfOk result (λ made. length made ≡ columns) }
    ensures each { IfOk result (λ made. (k : ℕ) → k < columns
        → value_at F.value made k ≡ projection_of (inverse_entry F.value inverse.now) column k) }
    ensures spill { IfErr result (IsShortOf (λ s. AtSome columns (λ k. (k ≢ column) × IsFactorSpill F.value F.range (inverse_entry F.value inverse.now) column k s))) }
{
    let mut made = List::new(alloc);
    for other in 0..columns {
        let value = factor(inverse, column, other)?;
        made.add(value)?;
    }
    Ok(made)
}

/// The projection of a column on the others, by the inverse of the Gram matrix of the weighted columns
/// (Koenker 2005, section 3.5).
///
/// It is refused where a division overflows: one over the diagonal entry of the column, or the negated
/// entry of another column over that.
pub fn project<F: Exact>(
    alloc: Global,
    problem: &Problem<F>,
    inverse: &Inverse<F>,
    column: u32,
) -> Result<Projected<F>, Short<F>>
    requires gram { IsGramInverse F.value problem.now inverse.now }
    requires within { column < problem.now.columns }
    ensures size { IfOk result (λ r. length r.factors ≡ problem.now.columns) }
    ensures projection { IfOk result (λ r. IsProjection (sample F.value problem.now) column (value_at F.value r.factors)) }
    ensures length { IfOk result (λ r. rational (F.value r.length) ≡ squared_length (sample F.value problem.now) column (value_at F.value r.factors)) }
    ensures positive { IfOk result (λ r. whole (pos 0) <ℚ rational (F.value r.length)) }
    ensures spill { IfErr result (IsShortOf (IsProjectingSpill F.value F.range problem.now.columns (inverse_entry F.value inverse.now) column)) }
{
    let length = length_at(inverse, column)?;
    let factors = factors(alloc, inverse, problem.columns, column)?;
    Ok(Projected { factors, length })
}
