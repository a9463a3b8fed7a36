//! The solving step.
ghost use Rattle.std.specs.Prelude.{◌≡◌, ◌≤◌, length, IfOk};
ghost use Rattle.whole_steps.specs.Stations.{IsStation};
ghost use Rattle.whole_steps.specs.Quantiles.{IsQuantile};
ghost use Rattle.whole_steps.specs.Leavings.{IsLeavingAt, IsEnteringAt, IsSolvingOrNone};

use crate::full_line::FullLine;
use crate::leaving::{Leaving, steepest};
use crate::passing::Descent;
use crate::quantile::Quantile;
use crate::station::Station;
use std::alloc::Global;
use tableau_model::Step;
use whole_inverse::Obstacle;

/// The row that enters where a position leaves.
fn entering(
    alloc: Global,
    station: &Station<'_>,
    theta: Quantile<i128>,
    leave: Leaving<i128>,
) -> Result<u32, Obstacle>
    requires station { IsStation station.now }
    requires theta { IsQuantile theta }
    requires leave { IsLeavingAt station.now theta leave }
    ensures { IfOk result (IsEnteringAt station.now theta leave) }
{
    let numbers = station.row_numbers(alloc, leave.position)?;
    let full = FullLine {
        line: station.line(leave.position, leave.direction),
        residuals: numbers.residuals.as_slice(),
        coords: numbers.coords.as_slice(),
    };
    let descent = Descent { full, theta };
    let row = descent.entering_row(alloc, leave.slope)?;
    Ok(row)
}

/// The solving step at a quantile that is left, or none where no slope is negative.
pub fn solving_step(
    alloc: Global,
    station: &Station<'_>,
    theta: Quantile<i128>,
    columns: u32,
) -> Result<Option<Step>, Obstacle>
    requires station { IsStation station.now }
    requires theta { IsQuantile theta }
    requires columns { columns ≡ length station.now.basis.now.inverse.now.columns }
    requires some { 1 ≤ columns }
    ensures { IfOk result (IsSolvingOrNone station.now theta) }
{
    match steepest(station, theta, columns) {
        Ok(None) => Ok(None),
        Ok(Some(leave)) => {
            let row = entering(alloc, station, theta, leave)?;
            Ok(Some(Step {
                position: leave.position,
                row,
            }))
        }
        Err(obstacle) => Err(obstacle),
    }
}
