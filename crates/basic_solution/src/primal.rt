//! The coefficients that fit the rows of a basis exactly, and the residuals of all rows.
ghost use Rattle.std.specs.Prelude.{◌≡◌, ℕ, ◌<◌, length, slice_index, IfOk, IfErr};
ghost use Rattle.rational_laws.specs.Fraction.{rational};
ghost use Rattle.loss_model.specs.Sample.{residual};
ghost use Rattle.loss_model.specs.Problem.{value_at, sample, IsWellShaped};
ghost use Rattle.loss_model.specs.Quantities.{IsShortOf};
ghost use Rattle.basis_inverse.specs.Square.{inverse_entry};
ghost use Rattle.basis_model.specs.Basis.{coefficient};
ghost use Rattle.basis_model.specs.BasisSpills.{IsCoefficientSpill};
ghost use Rattle.basic_solution.specs.Bases.{HasBasis, IsCoefficientsSpill, IsResidualsSpill};

use basis_inverse::Inverse;
use frac_core::{Exact, List};
use loss_model::{Basis, Problem, Quantity, Short, Site, Spill, plus_product, residual_at};
use std::alloc::Global;

/// The coefficient of a column: the inverse's row there times the responses of the basis.
fn coefficient<F: Exact>(
    problem: &Problem<F>,
    inverse: &Inverse<F>,
    basis: &Basis,
    column: u32,
) -> Result<F, Spill<F>>
    requires basis { HasBasis problem.now inverse.now basis.now.rows }
    requires within { column < problem.now.columns }
    ensures exact { let p = sample F.value problem.now in let at = slice_index basis.now.rows in
        IfOk result (λ b. rational (F.value b) ≡ coefficient p at (inverse_entry F.value inverse.now) column) }
    ensures spilled { let p = sample F.value problem.now in let at = slice_index basis.now.rows in
        IfErr result (IsCoefficientSpill F.value F.range p at (inverse_entry F.value inverse.now) column) }
{
    let rows = problem.rows.as_slice();
    let held = basis.rows.as_slice();
    let mut total = F::zero();
    for position in 0..problem.columns {
        let row = held[position as usize];
        let response = rows[row as usize].y;
        let site = Site::new(Quantity::Coefficient, column, 0, position);
        total = plus_product(site, total, inverse.entry(column, position), response)?;
    }
    Ok(total)
}

/// The coefficients by column.
pub fn coefficients<F: Exact>(
    alloc: Global,
    problem: &Problem<F>,
    inverse: &Inverse<F>,
    basis: &Basis,
) -> Result<List<F>, Short<F>>
    requires { HasBasis problem.now inverse.now basis.now.rows }
    ensures size { IfOk result (λ coef. length coef ≡ problem.now.columns) }
    ensures each { let p = sample F.value problem.now in let at = slice_index basis.now.rows in
        IfOk result (λ coef. (k : ℕ) → k < problem.now.columns
        → value_at F.value coef k ≡ coefficient p at (inverse_entry F.value inverse.now) k) }
    ensures spill { let p = sample F.value problem.now in let at = slice_index basis.now.rows in
        IfErr result (IsShortOf (IsCoefficientsSpill F.value F.range p at (inverse_entry F.value inverse.now))) }
{
    let mut made = List::new(alloc);
    for column in 0..problem.columns {
        made.add(coefficient(problem, inverse, basis, column)?)?;
    }
    Ok(made)
}

/// The residuals of the rows under coefficients.
pub fn residuals<F: Exact>(
    alloc: Global,
    problem: &Problem<F>,
    coef: &[F],
) -> Result<List<F>, Short<F>>
    requires shaped { IsWellShaped problem.now }
    requires coefs { length coef.now ≡ problem.now.columns }
    ensures size { IfOk result (λ made. length made ≡ length problem.now.rows) }
    ensures each { let p = sample F.value problem.now in let b = value_at F.value coef.now in
        IfOk result (λ made. (i : ℕ) → i < length problem.now.rows → value_at F.value made i ≡ residual p b i) }
    ensures spill { let p = sample F.value problem.now in let b = value_at F.value coef.now in
        IfErr result (IsShortOf (IsResidualsSpill F.value F.range p b)) }
{
    let mut made = List::new(alloc);
    for row in 0..problem.rows.as_slice().len() as u32 {
        made.add(residual_at(problem, row, coef)?)?;
    }
    Ok(made)
}
