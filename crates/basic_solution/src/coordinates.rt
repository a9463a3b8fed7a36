//! Coordinates: of all rows at one position, and of one row at all positions.
ghost use Rattle.std.specs.Prelude.{◌≡◌, ℕ, ◌<◌, length, IfOk, IfErr};
ghost use Rattle.rational_laws.specs.Fraction.{rational};
ghost use Rattle.loss_model.specs.Problem.{value_at, sample, IsWellShaped};
ghost use Rattle.loss_model.specs.Quantities.{IsShortOf, IsCoordinateSpill, IsCoordinatesSpill};
ghost use Rattle.basis_inverse.specs.Square.{inverse_entry};
ghost use Rattle.basis_model.specs.Basis.{coord};
ghost use Rattle.basic_solution.specs.Bases.{IsColumnSpill};

use basis_inverse::Inverse;
use frac_core::{Exact, List};
use loss_model::{Problem, Short, Spill};
use std::alloc::Global;

/// The coordinate of a row of the problem at a position.
fn coordinate<F: Exact>(
    problem: &Problem<F>,
    inverse: &Inverse<F>,
    row: u32,
    position: u32,
) -> Result<F, Spill<F>>
    requires shaped { IsWellShaped problem.now }
    requires size { length inverse.now.columns ≡ problem.now.columns }
    requires row { row < length problem.now.rows }
    requires position { position < problem.now.columns }
    ensures exact { let p = sample F.value problem.now in
        IfOk result (λ c. rational (F.value c) ≡ coord p (inverse_entry F.value inverse.now) row position) }
    ensures spilled { let p = sample F.value problem.now in let a = inverse_entry F.value inverse.now in
        IfErr result (IsCoordinateSpill F.value F.range p.columns a (p.x row) row position) }
{
    let x = problem.rows.as_slice()[row as usize].x.as_slice();
    inverse.coordinate(x, position, row)
}

/// The coordinates of all rows at a position.
pub fn coordinates_at<F: Exact>(
    alloc: Global,
    problem: &Problem<F>,
    inverse: &Inverse<F>,
    position: u32,
) -> Result<List<F>, Short<F>>
    requires shaped { IsWellShaped problem.now }
    requires size { length inverse.now.columns ≡ problem.now.columns }
    requires position { position < problem.now.columns }
    ensures size { IfOk result (λ made. length made ≡ length problem.now.rows) }
    ensures each { let p = sample F.value problem.now in
        IfOk result (λ made. (i : ℕ) → i < length problem.now.rows
        → value_at F.value made i ≡ coord p (inverse_entry F.value inverse.now) i position) }
    ensures spill { let p = sample F.value problem.now in
        IfErr result (IsShortOf (IsColumnSpill F.value F.range p (inverse_entry F.value inverse.now) position)) }
{
    let mut made = List::new(alloc);
    for row in 0..problem.rows.as_slice().len() as u32 {
        made.add(coordinate(problem, inverse, row, position)?)?;
    }
    Ok(made)
}

/// The coordinates of a row at all positions.
pub fn row_coordinates<F: Exact>(
    alloc: Global,
    problem: &Problem<F>,
    inverse: &Inverse<F>,
    row: u32,
) -> Result<List<F>, Short<F>>
    requires shaped { IsWellShaped problem.now }
    requires size { length inverse.now.columns ≡ problem.now.columns }
    requires row { row < length problem.now.rows }
    ensures size { IfOk result (λ made. length made ≡ problem.now.columns) }
    ensures each { let p = sample F.value problem.now in
        IfOk result (λ made. (j : ℕ) → j < problem.now.columns
        → value_at F.value made j ≡ coord p (inverse_entry F.value inverse.now) row j) }
    ensures spill { let p = sample F.value problem.now in let a = inverse_entry F.value inverse.now in
        IfErr result (IsShortOf (IsCoordinatesSpill F.value F.range p.columns a (p.x row) row)) }
{
    let mut made = List::new(alloc);
    for position in 0..problem.columns {
        made.add(coordinate(problem, inverse, row, position)?)?;
    }
    Ok(made)
}
