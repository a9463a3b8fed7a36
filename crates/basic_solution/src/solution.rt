//! All that stands at a basis, together.
ghost use Rattle.std.specs.Prelude.{◌≡◌, ℕ, ◌<◌, length, slice_index, IfOk, IfErr};
ghost use Rattle.loss_model.specs.Problem.{value_at, sample, IsWellShaped};
ghost use Rattle.loss_model.specs.Quantities.{IsShortOf};
ghost use Rattle.basis_inverse.specs.Square.{inverse_entry, IsInverse};
ghost use Rattle.basis_model.specs.Basis.{side_at, basic_dual};
ghost use Rattle.basis_model.specs.BasisSpills.{IsBasisSpill};
ghost use Rattle.loss_model.specs.Sides.{side_in};
ghost use Rattle.basic_solution.specs.Bases.{HasBasis};
ghost use Rattle.basic_solution.specs.Solutions.{IsPrimal, AreDuals, IsSolution, IsDualSpill};

use crate::columns::totals;
use crate::duals::balancing_values;
use crate::primal::{coefficients, residuals};
use crate::signs::sides;
use crate::station::Station;
use basis_inverse::Inverse;
use basis_model::Part;
use frac_core::{Exact, List};
use loss_model::{Basis, Problem, Short, Side};
use std::alloc::Global;

/// What stands at a basis: the coefficients by column, the residuals and the sides by row, and the
/// two parts of the dual values by position, which at theta are `constant + linear * theta`.
#[derive(Drop)]
pub struct BasicSolution<F> {
    pub coef: List<F>,
    pub residuals: List<F>,
    pub sides: List<Side>,
    pub constant: List<F>,
    pub linear: List<F>,
}

/// A part of the basic dual values by position, from the sides of the rows.
fn basic_duals<F: Exact>(
    alloc: Global,
    station: &Station<F>,
    sides: &[Side],
    part: Part,
) -> Result<List<F>, Short<F>>
    requires shaped { IsWellShaped station.now.problem.now }
    requires basis { HasBasis station.now.problem.now station.now.inverse.now station.now.basis.now.rows }
    requires inverse { IsInverse F.value station.now.inverse.now }
    requires size { length sides.now ≡ length station.now.problem.now.rows }
    requires sides { let p = sample F.value station.now.problem.now in (i : ℕ) → i < length station.now.problem.now.rows
        → side_in sides.now i ≡ side_at p (slice_index station.now.basis.now.rows) (inverse_entry F.value station.now.inverse.now) i }
    ensures size { IfOk result (λ made. length made ≡ station.now.problem.now.columns) }
    ensures each { let p = sample F.value station.now.problem.now in let at = slice_index station.now.basis.now.rows in
        IfOk result (λ made. (j : ℕ) → j < station.now.problem.now.columns
        → value_at F.value made j ≡ basic_dual p at (inverse_entry F.value station.now.inverse.now) part j) }
    ensures spill { let p = sample F.value station.now.problem.now in let at = slice_index station.now.basis.now.rows in
        IfErr result (IsShortOf (IsDualSpill F.value F.range p at (inverse_entry F.value station.now.inverse.now))) }
{
    let weights = totals(alloc, station.problem, sides, part)?;
    balancing_values(alloc, station.inverse, weights.as_slice(), part)
}

/// The coefficients by column, and the residuals and the sides by row.
#[derive(Drop)]
struct Primal<F> {
    coef: List<F>,
    residuals: List<F>,
    sides: List<Side>,
}

/// The coefficients, the residuals and the sides at a basis.
fn primal_part<F: Exact>(
    alloc: Global,
    problem: &Problem<F>,
    inverse: &Inverse<F>,
    basis: &Basis,
) -> Result<Primal<F>, Short<F>>
    requires shaped { IsWellShaped problem.now }
    requires basis { HasBasis problem.now inverse.now basis.now.rows }
    ensures primal { let p = sample F.value problem.now in let at = slice_index basis.now.rows in
        IfOk result (IsPrimal F.value p at (inverse_entry F.value inverse.now)) }
    ensures spill { let p = sample F.value problem.now in let at = slice_index basis.now.rows in
        IfErr result (IsShortOf (IsBasisSpill F.value F.range p at (inverse_entry F.value inverse.now))) }
{
    let coef = coefficients(alloc, problem, inverse, basis)?;
    let residuals = residuals(alloc, problem, coef.as_slice())?;
    let sides = sides(alloc, problem, inverse, basis, residuals.as_slice())?;
    Ok(Primal {
        coef,
        residuals,
        sides,
    })
}

/// The two parts of the basic dual values by position.
#[derive(Drop)]
struct Duals<F> {
    constant: List<F>,
    linear: List<F>,
}

/// Both parts of the basic dual values, from the sides of the rows.
fn dual_part<F: Exact>(
    alloc: Global,
    station: &Station<F>,
    sides: &[Side],
) -> Result<Duals<F>, Short<F>>
    requires shaped { IsWellShaped station.now.problem.now }
    requires basis { HasBasis station.now.problem.now station.now.inverse.now station.now.basis.now.rows }
    requires inverse { IsInverse F.value station.now.inverse.now }
    requires size { length sides.now ≡ length station.now.problem.now.rows }
    requires sides { let p = sample F.value station.now.problem.now in (i : ℕ) → i < length station.now.problem.now.rows
        → side_in sides.now i ≡ side_at p (slice_index station.now.basis.now.rows) (inverse_entry F.value station.now.inverse.now) i }
    ensures duals { let p = sample F.value station.now.problem.now in let at = slice_index station.now.basis.now.rows in
        IfOk result (AreDuals F.value p at (inverse_entry F.value station.now.inverse.now)) }
    ensures spill { let p = sample F.value station.now.problem.now in let at = slice_index station.now.basis.now.rows in
        IfErr result (IsShortOf (IsDualSpill F.value F.range p at (inverse_entry F.value station.now.inverse.now))) }
{
    let constant = basic_duals(alloc, station, sides, Part::Constant)?;
    let linear = basic_duals(alloc, station, sides, Part::Linear)?;
    Ok(Duals { constant, linear })
}

/// What stands at a basis.
///
/// It is refused where no memory is found or an operation of one of its quantities overflows: of a
/// coefficient, a residual, a coordinate of a row, a total of a column, or a basic dual value.
pub fn basic_solution<F: Exact>(
    alloc: Global,
    problem: &Problem<F>,
    inverse: &Inverse<F>,
    basis: &Basis,
) -> Result<BasicSolution<F>, Short<F>>
    requires shaped { IsWellShaped problem.now }
    requires basis { HasBasis problem.now inverse.now basis.now.rows }
    requires inverse { IsInverse F.value inverse.now }
    ensures solution { let p = sample F.value problem.now in let at = slice_index basis.now.rows in
        IfOk result (IsSolution F.value p at (inverse_entry F.value inverse.now)) }
    ensures spill { let p = sample F.value problem.now in let at = slice_index basis.now.rows in
        IfErr result (IsShortOf (IsBasisSpill F.value F.range p at (inverse_entry F.value inverse.now))) }
{
    let primal = primal_part(alloc, problem, inverse, basis)?;
    let station = Station {
        problem,
        inverse,
        basis,
    };
    match dual_part(alloc, &station, primal.sides.as_slice()) {
        Ok(duals) => Ok(BasicSolution {
            coef: primal.coef,
            residuals: primal.residuals,
            sides: primal.sides,
            constant: duals.constant,
            linear: duals.linear,
        }),
        Err(short) => {
            drop(primal);
            Err(short)
        }
    }
}
