//! The line search: the rows that move are passed until the slope is no longer negative.
ghost use Rattle.std.specs.Prelude.{◌≡◌, ℕ, ◌+◌, ◌<◌, ◌≤◌, length, IfOk, IfErr};
ghost use Rattle.rational_laws.specs.Fraction.{rational};
ghost use Rattle.rational_laws.specs.Rational.{◌+ℚ◌};
ghost use Rattle.frac_core.specs.Limits.{most_rows};
ghost use Rattle.loss_model.specs.Quantities.{IsShortOf};
ghost use Rattle.pivot_model.specs.Spills.{direction_number};
ghost use Rattle.fraction_tableau.specs.Lines.{IsMover, AreMovers};
ghost use Rattle.fraction_tableau.specs.Descents.{IsDescent, IsDescentSpill, Enters, first_slope, slope_until, passed_until, passing_of};

use crate::heap::{make_heap, pop};
use crate::line::{Line, Mover};
use basic_solution::cost_sum;
use frac_core::Exact;
use loss_model::{Quantity, Short, Site, Spill, plus_product};
use pivot_model::Direction;

/// The number of a direction in the site of a slope.
fn number_of(direction: Direction) -> u32
    ensures { result ≡ direction_number direction }
{
    match direction {
        Direction::Upward => 0,
        Direction::Downward => 1,
    }
}

/// The slope after a row is passed, where as many were passed before.
fn pass<F: Exact>(line: &Line<F>, mover: Mover<F>, slope: F, passed: u32) -> Result<F, Spill<F>>
    requires descent { IsDescent F.value line.now }
    requires mover { IsMover F.value line.now mover }
    requires slope { rational (F.value slope) ≡ slope_until F.value line.now mover.row }
    requires passed { passed ≡ passed_until F.value line.now mover.row }
    requires few { passed ≤ most_rows }
    ensures exact { IfOk result (λ next. rational (F.value next) ≡ rational (F.value slope) +ℚ passing_of F.value line.now mover.row) }
    ensures spill { IfErr result (IsDescentSpill F.value F.range line.now) }
{
    let row = mover.row;
    let up = line.tableau.up_cost(row, line.theta)?;
    let down = line.tableau.down_cost(row, line.theta)?;
    let cost = cost_sum(row, up, down)?;
    let direction = number_of(line.direction);
    let site = Site::new(Quantity::Slope, line.position, direction, passed + 1);
    plus_product(site, slope, mover.size, cost)
}

/// The row that enters: the one that takes the slope, which is negative, from below 0.
pub fn entering<F: Exact>(line: &Line<F>, heap: &mut [Mover<F>], slope: F) -> Result<u32, Short<F>>
    requires descent { IsDescent F.value line.now }
    requires movers { AreMovers F.value line.now heap.old }
    requires slope { rational (F.value slope) ≡ first_slope F.value line.now }
    ensures enters { IfOk result (λ row. Enters F.value line.now row) }
    ensures spill { IfErr result (IsShortOf (IsDescentSpill F.value F.range line.now)) }
{
    make_heap(line, heap)?;
    let mut slope = slope;
    let mut end = heap.len();
    while end > 0 {
        let passed = heap.len() - end;
        let mover = heap[0];
        let next = pass(line, mover, slope, passed as u32)?;
        if next.sign() >= 0 {
            return Ok(mover.row);
        }
        slope = next;
        end -= 1;
        pop(line, heap, end)?;
    }
    unreachable!()
}
