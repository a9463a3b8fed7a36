//! The dual values of the rows of a basis, and the slopes of the loss that they give.
ghost use Rattle.std.specs.Prelude.{◌≡◌, ℕ, ◌<◌, length, IfOk, IfErr};
ghost use Rattle.rational_laws.specs.Fraction.{rational};
ghost use Rattle.rational_laws.specs.Rational.{◌+ℚ◌, ◌-ℚ◌, ◌*ℚ◌};
ghost use Rattle.loss_model.specs.declared.vertex.Side.TheVariants.{Up, Down};
ghost use Rattle.loss_model.specs.Problem.{value_at};
ghost use Rattle.loss_model.specs.Quantities.{IsShortOf};
ghost use Rattle.basis_inverse.specs.Square.{inverse_entry, IsInverse};
ghost use Rattle.basis_model.specs.Basis.{balancing};
ghost use Rattle.basis_model.specs.BasisSpills.{IsBalancingSpill, IsDualValueSpill, IsSlopeSpill, IsCostSumSpill};
ghost use Rattle.basic_solution.specs.Bases.{IsBalancingsSpill};

use basis_inverse::Inverse;
use basis_model::Part;
use frac_core::{Exact, List};
use loss_model::{Quantity, Short, Sign, Site, Spill, minus_at, plus_at, plus_product};
use std::alloc::Global;

/// The value of the row at a position that balances totals of the columns: the negated totals times
/// the inverse's column there.
fn balancing_value<F: Exact>(
    inverse: &Inverse<F>,
    totals: &[F],
    part: Part,
    position: u32,
) -> Result<F, Spill<F>>
    requires inverse { IsInverse F.value inverse.now }
    requires size { length totals.now ≡ length inverse.now.columns }
    requires position { position < length totals.now }
    ensures exact { let n = length totals.now in let a = inverse_entry F.value inverse.now in
        IfOk result (λ e. rational (F.value e) ≡ balancing n a (value_at F.value totals.now) position) }
    ensures spilled { let n = length totals.now in let a = inverse_entry F.value inverse.now in
        IfErr result (IsBalancingSpill F.value F.range n a (value_at F.value totals.now) part position) }
{
    let site = Site::new(Quantity::BasicDual, position, part.number(), 0);
    inverse
        .column(position)
        .sum_of_products(site, F::zero(), Sign::Minus, totals)
}

/// Those values by position. For the totals of one part over the rows outside a basis they are that
/// part of the basic dual values.
pub fn balancing_values<F: Exact>(
    alloc: Global,
    inverse: &Inverse<F>,
    totals: &[F],
    part: Part,
) -> Result<List<F>, Short<F>>
    requires inverse { IsInverse F.value inverse.now }
    requires size { length totals.now ≡ length inverse.now.columns }
    ensures size { IfOk result (λ made. length made ≡ length totals.now) }
    ensures each { let a = inverse_entry F.value inverse.now in
        IfOk result (λ made. (j : ℕ) → j < length totals.now
        → value_at F.value made j ≡ balancing (length totals.now) a (value_at F.value totals.now) j) }
    ensures spill { let n = length totals.now in let a = inverse_entry F.value inverse.now in
        IfErr result (IsShortOf (IsBalancingsSpill F.value F.range n a (value_at F.value totals.now) part)) }
{
    let mut made = List::new(alloc);
    for position in 0..totals.len() {
        made.add(balancing_value(inverse, totals, part, position as u32)?)?;
    }
    Ok(made)
}

/// The dual value of the row at a position at theta: its constant part, and then its linear part
/// times theta.
pub fn dual_value<F: Exact>(position: u32, constant: F, linear: F, theta: F) -> Result<F, Spill<F>>
    ensures exact { IfOk result (λ e. rational (F.value e)
        ≡ rational (F.value constant) +ℚ (rational (F.value linear) *ℚ rational (F.value theta))) }
    ensures spilled { let constant = rational (F.value constant) in let linear = rational (F.value linear) in
        IfErr result (IsDualValueSpill F.value F.range constant linear (rational (F.value theta)) position) }
{
    let site = Site::new(Quantity::DualValue, position, 0, 1);
    plus_product(site, constant, linear, theta)
}

/// The slope of the loss as the residual of the row at a position rises: its up cost minus its dual
/// value.
pub fn slope_up<F: Exact>(position: u32, cost: F, dual: F) -> Result<F, Spill<F>>
    ensures exact { IfOk result (λ s. rational (F.value s)
        ≡ rational (F.value cost) -ℚ rational (F.value dual)) }
    ensures spilled { let cost = rational (F.value cost) in let dual = rational (F.value dual) in
        IfErr result (IsSlopeSpill F.value F.range position Up cost dual) }
{
    minus_at(Site::new(Quantity::Slope, position, 0, 1), cost, dual)
}

/// The slope as it falls: its down cost plus its dual value.
pub fn slope_down<F: Exact>(position: u32, cost: F, dual: F) -> Result<F, Spill<F>>
    ensures exact { IfOk result (λ s. rational (F.value s)
        ≡ rational (F.value cost) +ℚ rational (F.value dual)) }
    ensures spilled { let cost = rational (F.value cost) in let dual = rational (F.value dual) in
        IfErr result (IsSlopeSpill F.value F.range position Down cost dual) }
{
    plus_at(Site::new(Quantity::Slope, position, 1, 1), cost, dual)
}

/// The up cost of a row plus its down cost.
pub fn cost_sum<F: Exact>(row: u32, up: F, down: F) -> Result<F, Spill<F>>
    ensures exact { IfOk result (λ s. rational (F.value s) ≡ rational (F.value up) +ℚ rational (F.value down)) }
    ensures spilled { let up = rational (F.value up) in let down = rational (F.value down) in
        IfErr result (IsCostSumSpill F.value F.range row up down) }
{
    plus_at(Site::new(Quantity::CostSum, row, 0, 1), up, down)
}
