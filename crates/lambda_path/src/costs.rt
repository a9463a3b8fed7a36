//! The costs of a data row at one quantile.
ghost use Rattle.std.specs.Prelude.{◌≡◌, IfErr, IfOk, OnOk, pos};
ghost use Rattle.rational_laws.specs.Rational.{◌-ℚ◌, ◌*ℚ◌, whole};
ghost use Rattle.frac_core.specs.Values.{exact};
ghost use Rattle.tv_penalty.specs.Operations.{NoneOverflows, OverflowsFirst};
ghost use Rattle.lambda_path.specs.Faults.{cost_operations};

use frac_core::{Exact, Frac128};
use loss_model::{Quantity, Site, Spill, minus_at, times_at};

/// What a unit of residual costs above the fit and below it.
#[derive(Clone, Copy)]
pub(crate) struct Costs {
    pub(crate) up: Frac128,
    pub(crate) down: Frac128,
}

/// The costs of the row of this number and weight, or the first operation that overflows.
pub(crate) fn row_costs(number: u32, weight: Frac128, tau: Frac128) -> Result<Costs, Spill<Frac128>>
    ensures up { IfOk result (λ c. exact c.up ≡ exact weight *ℚ exact tau) }
    ensures down { IfOk result (λ c. exact c.down ≡ exact weight *ℚ (whole (pos 1) -ℚ exact tau)) }
    ensures fits { OnOk result (NoneOverflows (cost_operations number (exact weight) (exact tau))) }
    ensures spill { IfErr result (OverflowsFirst (cost_operations number (exact weight) (exact tau))) }
{
    let up = times_at(Site::new(Quantity::PathCost, number, 0, 1), weight, tau)?;
    let left = minus_at(
        Site::new(Quantity::PathCost, number, 1, 1),
        Frac128::one(),
        tau,
    )?;
    let down = times_at(Site::new(Quantity::PathCost, number, 1, 2), weight, left)?;
    Ok(Costs { up, down })
}
