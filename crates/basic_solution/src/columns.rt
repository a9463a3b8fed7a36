//! The totals of the columns over the rows outside a basis.
ghost use Rattle.std.specs.Prelude.{◌≡◌, ℕ, ◌<◌, length, IfOk, IfErr};
ghost use Rattle.rational_laws.specs.Fraction.{rational};
ghost use Rattle.loss_model.specs.Problem.{value_at, sample, IsWellShaped};
ghost use Rattle.loss_model.specs.Quantities.{IsShortOf};
ghost use Rattle.basis_model.specs.Basis.{nonbasic_total};
ghost use Rattle.basis_model.specs.BasisSpills.{is_basic as basic_test, IsTotalSpill};
ghost use Rattle.loss_model.specs.Sides.{side_in};
ghost use Rattle.basic_solution.specs.Bases.{bound_of, IsTotalsSpill};

use basis_model::Part;
use frac_core::{Exact, List};
use loss_model::{Problem, Quantity, Row, Short, Side, Site, Spill, plus_product};
use std::alloc::Global;

/// A part of the dual value of a row on a side.
fn bound<F: Exact>(chosen: &Row<F>, side: Side, part: Part) -> F
    ensures { rational (F.value result) ≡ bound_of F.value chosen.now part side }
{
    match (side, part) {
        (Side::Up, Part::Constant) => chosen.up0,
        (Side::Up, Part::Linear) => chosen.up1,
        (Side::Down, Part::Constant) => chosen.down0.neg(),
        (Side::Down, Part::Linear) => chosen.down1.neg(),
        (Side::Basic, _) => F::zero(),
    }
}

/// Whether it is the side of a row of the basis.
fn is_basic(side: Side) -> bool
    ensures { result ≡ basic_test side }
{
    match side {
        Side::Basic => true,
        _ => false,
    }
}

/// The total of a column: its entries times a part of the bounds, over the rows outside the basis.
fn total<F: Exact>(
    problem: &Problem<F>,
    sides: &[Side],
    part: Part,
    column: u32,
) -> Result<F, Spill<F>>
    requires shaped { IsWellShaped problem.now }
    requires sides { length sides.now ≡ length problem.now.rows }
    requires column { column < problem.now.columns }
    ensures exact { let p = sample F.value problem.now in
        IfOk result (λ t. rational (F.value t) ≡ nonbasic_total p (side_in sides.now) part column) }
    ensures spilled { let p = sample F.value problem.now in
        IfErr result (IsTotalSpill F.value F.range p (side_in sides.now) part column) }
{
    let rows = problem.rows.as_slice();
    let mut terms = 0;
    let mut sum = F::zero();
    for i in 0..rows.len() {
        let side = sides[i];
        if !is_basic(side) {
            let chosen = &rows[i];
            let site = Site::new(Quantity::NonbasicTotal, column, part.number(), terms);
            let entry = chosen.x.as_slice()[column as usize];
            sum = plus_product(site, sum, entry, bound(chosen, side, part))?;
            terms += 1;
        }
    }
    Ok(sum)
}

/// The totals by column.
pub fn totals<F: Exact>(
    alloc: Global,
    problem: &Problem<F>,
    sides: &[Side],
    part: Part,
) -> Result<List<F>, Short<F>>
    requires shaped { IsWellShaped problem.now }
    requires sides { length sides.now ≡ length problem.now.rows }
    ensures size { IfOk result (λ made. length made ≡ problem.now.columns) }
    ensures each { let p = sample F.value problem.now in
        IfOk result (λ made. (k : ℕ) → k < problem.now.columns
        → value_at F.value made k ≡ nonbasic_total p (side_in sides.now) part k) }
    ensures spill { let p = sample F.value problem.now in
        IfErr result (IsShortOf (IsTotalsSpill F.value F.range p (side_in sides.now) part)) }
{
    let mut made = List::new(alloc);
    for column in 0..problem.columns {
        made.add(total(problem, sides, part, column)?)?;
    }
    Ok(made)
}
