//! The sides of all rows at a basis.
ghost use Rattle.std.specs.Prelude.{◌≡◌, ◌≢◌, ℕ, ◌<◌, length, slice_index, IfOk, IfErr};
ghost use Rattle.rational_laws.specs.Fraction.{rational};
ghost use Rattle.loss_model.specs.Sample.{residual as residual_of};
ghost use Rattle.loss_model.specs.Problem.{value_at, sample, IsWellShaped};
ghost use Rattle.loss_model.specs.Quantities.{IsShortOf, IsCoordinatesSpill};
ghost use Rattle.basis_inverse.specs.Square.{inverse_entry};
ghost use Rattle.basis_model.specs.Perturbed.{perturbed_side as side_by_order};
ghost use Rattle.basis_model.specs.Basis.{coefficient, outside_row, side_at};
ghost use Rattle.loss_model.specs.Sides.{side_in};
ghost use Rattle.basic_solution.specs.Bases.{HasBasis, IsRowsSpill};

use crate::coordinates::row_coordinates;
use crate::station::Station;
use basis_inverse::Inverse;
use frac_core::{Exact, List};
use lex_rule::lex_sign;
use loss_model::{Basis, Problem, Short, Side};
use std::alloc::Global;
use std::cmp::Ordering;

/// The side of a row outside the basis. Where its residual is 0, all its coordinates are looked at.
fn perturbed_side<F: Exact>(
    alloc: Global,
    station: &Station<F>,
    row: u32,
    residual: F,
) -> Result<Side, Short<F>>
    requires shaped { IsWellShaped station.now.problem.now }
    requires basis { HasBasis station.now.problem.now station.now.inverse.now station.now.basis.now.rows }
    requires row { row < length station.now.problem.now.rows }
    requires outside { (j : ℕ) → j < length station.now.basis.now.rows → slice_index station.now.basis.now.rows j ≢ row }
    requires residual { let p = sample F.value station.now.problem.now in let at = slice_index station.now.basis.now.rows in
        let b = coefficient p at (inverse_entry F.value station.now.inverse.now) in
        rational (F.value residual) ≡ residual_of p b row }
    ensures side { let p = sample F.value station.now.problem.now in let at = slice_index station.now.basis.now.rows in
        let u = outside_row p at (inverse_entry F.value station.now.inverse.now) row in
        IfOk result (λ s. s ≡ side_by_order p.rows p.columns at u) }
    ensures spill { let p = sample F.value station.now.problem.now in let a = inverse_entry F.value station.now.inverse.now in
        IfErr result (IsShortOf (IsCoordinatesSpill F.value F.range p.columns a (p.x row) row)) }
{
    match residual.compare(F::zero()) {
        Ordering::Greater => Ok(Side::Up),
        Ordering::Less => Ok(Side::Down),
        Ordering::Equal => {
            let coords = row_coordinates(alloc, station.problem, station.inverse, row)?;
            Ok(lex_sign(residual, coords.as_slice(), station.basis, row))
        }
    }
}

/// The side of a row.
fn side_of_row<F: Exact>(
    alloc: Global,
    station: &Station<F>,
    row: u32,
    residual: F,
) -> Result<Side, Short<F>>
    requires shaped { IsWellShaped station.now.problem.now }
    requires basis { HasBasis station.now.problem.now station.now.inverse.now station.now.basis.now.rows }
    requires row { row < length station.now.problem.now.rows }
    requires residual { let p = sample F.value station.now.problem.now in let at = slice_index station.now.basis.now.rows in
        let b = coefficient p at (inverse_entry F.value station.now.inverse.now) in
        rational (F.value residual) ≡ residual_of p b row }
    ensures side { let p = sample F.value station.now.problem.now in
        IfOk result (λ s. s ≡ side_at p (slice_index station.now.basis.now.rows) (inverse_entry F.value station.now.inverse.now) row) }
    ensures spill { let p = sample F.value station.now.problem.now in let a = inverse_entry F.value station.now.inverse.now in
        IfErr result (IsShortOf (IsCoordinatesSpill F.value F.range p.columns a (p.x row) row)) }
{
    if station.basis.rows.as_slice().contains(&row) {
        return Ok(Side::Basic);
    }
    perturbed_side(alloc, station, row, residual)
}

/// The sides of all rows, which have these residuals.
pub fn sides<F: Exact>(
    alloc: Global,
    problem: &Problem<F>,
    inverse: &Inverse<F>,
    basis: &Basis,
    residuals: &[F],
) -> Result<List<Side>, Short<F>>
    requires shaped { IsWellShaped problem.now }
    requires basis { HasBasis problem.now inverse.now basis.now.rows }
    requires size { length residuals.now ≡ length problem.now.rows }
    requires residuals { let p = sample F.value problem.now in let at = slice_index basis.now.rows in
        let b = coefficient p at (inverse_entry F.value inverse.now) in
        (i : ℕ) → i < length problem.now.rows → value_at F.value residuals.now i ≡ residual_of p b i }
    ensures size { IfOk result (λ made. length made ≡ length problem.now.rows) }
    ensures each { let p = sample F.value problem.now in
        IfOk result (λ made. (i : ℕ) → i < length problem.now.rows
        → side_in made i ≡ side_at p (slice_index basis.now.rows) (inverse_entry F.value inverse.now) i) }
    ensures spill { let p = sample F.value problem.now in
        IfErr result (IsShortOf (IsRowsSpill F.value F.range p (inverse_entry F.value inverse.now))) }
{
    let station = Station {
        problem,
        inverse,
        basis,
    };
    let mut made = List::new(alloc);
    for row in 0..residuals.len() {
        let side = side_of_row(alloc, &station, row as u32, residuals[row])?;
        made.add(side)?;
    }
    Ok(made)
}
