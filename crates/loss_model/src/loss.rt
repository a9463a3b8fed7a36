//! Residuals, costs and the check loss.

ghost use Rattle.std.specs.Prelude.{◌≡◌, ◌<◌, length, IfOk, IfErr};
ghost use Rattle.rational_laws.specs.Fraction.{rational};
ghost use Rattle.rational_laws.specs.Rational.{◌+ℚ◌, ◌*ℚ◌};
ghost use Rattle.loss_model.specs.Sample.{up_cost, down_cost, residual, loss};
ghost use Rattle.loss_model.specs.Problem.{value_at, sample, IsWellShaped};
ghost use Rattle.loss_model.specs.Spill.{side_cost, abs_ℚ, IsResidualSpill, IsUpCostSpill, IsDownCostSpill, IsRowSpill, IsLossSpill};

use crate::problem::Problem;
use crate::sites::{Sign, plus_product, sum_of_products};
use crate::spill::{Quantity, Site, Spill};
use frac_core::Exact;

/// The residual of a row: its response, and then its negated entries times the coefficients.
pub fn residual_at<F: Exact>(problem: &Problem<F>, row: u32, coef: &[F]) -> Result<F, Spill<F>>
    requires shaped { IsWellShaped problem.now }
    requires coefs { length coef.now ≡ problem.now.columns }
    requires inside { row < length problem.now.rows }
    ensures exact { let p = sample F.value problem.now in let b = value_at F.value coef.now in
        IfOk result (λ r. rational (F.value r) ≡ residual p b row) }
    ensures spilled { let p = sample F.value problem.now in let b = value_at F.value coef.now in
        IfErr result (IsResidualSpill F.value F.range p b row) }
{
    let chosen = &problem.rows.as_slice()[row as usize];
    let site = Site::new(Quantity::Residual, row, 0, 1);
    sum_of_products(site, chosen.y, Sign::Minus, chosen.x.as_slice(), coef)
}

/// The up cost of a row at theta: part 0, and then part 1 times theta.
pub fn up_cost_at<F: Exact>(problem: &Problem<F>, row: u32, theta: F) -> Result<F, Spill<F>>
    requires { row < length problem.now.rows }
    ensures exact { let p = sample F.value problem.now in let t = rational (F.value theta) in
        IfOk result (λ r. rational (F.value r) ≡ up_cost p t row) }
    ensures spilled { let p = sample F.value problem.now in let t = rational (F.value theta) in
        IfErr result (IsUpCostSpill F.value F.range p t row) }
{
    let chosen = &problem.rows.as_slice()[row as usize];
    let site = Site::new(Quantity::CostValue, row, 0, 1);
    plus_product(site, chosen.up0, chosen.up1, theta)
}

/// The down cost of a row at theta: part 0, and then part 1 times theta.
pub fn down_cost_at<F: Exact>(problem: &Problem<F>, row: u32, theta: F) -> Result<F, Spill<F>>
    requires { row < length problem.now.rows }
    ensures exact { let p = sample F.value problem.now in let t = rational (F.value theta) in
        IfOk result (λ r. rational (F.value r) ≡ down_cost p t row) }
    ensures spilled { let p = sample F.value problem.now in let t = rational (F.value theta) in
        IfErr result (IsDownCostSpill F.value F.range p t row) }
{
    let chosen = &problem.rows.as_slice()[row as usize];
    let site = Site::new(Quantity::CostValue, row, 1, 1);
    plus_product(site, chosen.down0, chosen.down1, theta)
}

// The cost of the side on which a residual lies, and the size of the residual.
#[derive(Clone, Copy)]
struct Priced<F> {
    cost: F,
    size: F,
}

// What the loss of a row is the product of.
fn price<F: Exact>(
    problem: &Problem<F>,
    row: u32,
    coef: &[F],
    theta: F,
) -> Result<Priced<F>, Spill<F>>
    requires shaped { IsWellShaped problem.now }
    requires coefs { length coef.now ≡ problem.now.columns }
    requires inside { row < length problem.now.rows }
    ensures cost { let p = sample F.value problem.now in let t = rational (F.value theta) in
        IfOk result (λ r. rational (F.value r.cost) ≡ side_cost p t (value_at F.value coef.now) row) }
    ensures size { let p = sample F.value problem.now in let b = value_at F.value coef.now in
        IfOk result (λ r. rational (F.value r.size) ≡ abs_ℚ (residual p b row)) }
    ensures spilled { let p = sample F.value problem.now in let b = value_at F.value coef.now in
        IfErr result (IsRowSpill F.value F.range p (rational (F.value theta)) b row) }
{
    let residual = residual_at(problem, row, coef)?;
    if residual.sign() < 0 {
        let cost = down_cost_at(problem, row, theta)?;
        let size = residual.neg();
        Ok(Priced { cost, size })
    } else {
        let cost = up_cost_at(problem, row, theta)?;
        Ok(Priced {
            cost,
            size: residual,
        })
    }
}

/// The check loss of coefficients at theta: the plain sum of the rows' losses, each of which is the
/// cost of its side, up for a residual of 0, times the size of its residual. It takes no memory.
///
/// A spill comes only where the operation at its site overflows: one of a residual, of a cost, or
/// of the sum (quantity `Loss`, with the first index 0).
pub fn loss_at<F: Exact>(problem: &Problem<F>, coef: &[F], theta: F) -> Result<F, Spill<F>>
    requires shaped { IsWellShaped problem.now }
    requires coefs { length coef.now ≡ problem.now.columns }
    ensures exact { let p = sample F.value problem.now in let b = value_at F.value coef.now in
        IfOk result (λ r. rational (F.value r) ≡ loss p (rational (F.value theta)) b) }
    ensures spilled { let p = sample F.value problem.now in let b = value_at F.value coef.now in
        IfErr result (IsLossSpill F.value F.range p (rational (F.value theta)) b) }
{
    let rows = problem.rows.as_slice().len() as u32;
    let mut total = F::zero();
    for row in 0..rows {
        let priced = price(problem, row, coef, theta)?;
        let site = Site::new(Quantity::Loss, 0, 0, row);
        total = plus_product(site, total, priced.cost, priced.size)?;
    }
    Ok(total)
}
