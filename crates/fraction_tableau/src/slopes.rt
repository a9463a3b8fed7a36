//! The position that leaves a basis.
ghost use Rattle.std.specs.Prelude.{◌≡◌, ◌<◌, IfOk, IfErr};
ghost use Rattle.rational_laws.specs.Fraction.{rational};
ghost use Rattle.tableau_model.specs.Slopes.{IsSteeper};
ghost use Rattle.fraction_tableau.specs.Slopes.{HasDuals, slope_of, IsLesserOf, IsLeavingOf, IsSlopesSpill};

use crate::fractions::FractionTableau;
use basic_solution::{slope_down, slope_up};
use frac_core::Exact;
use loss_model::Spill;
use pivot_model::Direction;
use tableau_model::Leaving;

/// The slopes of the loss at a basis at a quantile, by the dual values of its rows there.
#[derive(Drop)]
pub struct Slopes<'a, F: Exact> {
    pub tableau: &'a FractionTableau<'a, F>,
    pub duals: &'a [F],
    pub theta: F,
}

/// The slope that is less, and the first of equal ones.
fn steeper<F: Exact>(first: Leaving<F>, second: Leaving<F>) -> Leaving<F>
    ensures { IsSteeper F.value first second result }
{
    if second.slope.compare(first.slope).is_lt() {
        second
    } else {
        first
    }
}

impl<'a, F: Exact> Slopes<'a, F> {
    /// The slope of a position in a direction.
    fn slope(&self, position: u32, direction: Direction) -> Result<F, Spill<F>>
        requires duals { HasDuals F.value self.now }
        requires position { position < self.now.tableau.now.problem.columns }
        ensures exact { IfOk result (λ s. rational (F.value s) ≡ slope_of F.value self.now position direction) }
        ensures spill { IfErr result (IsSlopesSpill F.value F.range self.now) }
    {
        let row = self.tableau.row_at(position);
        let dual = self.duals[position as usize];
        match direction {
            Direction::Upward => {
                let cost = self.tableau.up_cost(row, self.theta)?;
                slope_up(position, cost, dual)
            }
            Direction::Downward => {
                let cost = self.tableau.down_cost(row, self.theta)?;
                slope_down(position, cost, dual)
            }
        }
    }

    /// The lesser of the two slopes of a position.
    fn lesser(&self, position: u32) -> Result<Leaving<F>, Spill<F>>
        requires duals { HasDuals F.value self.now }
        requires position { position < self.now.tableau.now.problem.columns }
        ensures lesser { IfOk result (IsLesserOf F.value self.now position) }
        ensures spill { IfErr result (IsSlopesSpill F.value F.range self.now) }
    {
        let up = self.slope(position, Direction::Upward)?;
        let down = self.slope(position, Direction::Downward)?;
        if down.compare(up).is_lt() {
            Ok(Leaving {
                position,
                direction: Direction::Downward,
                slope: down,
            })
        } else {
            Ok(Leaving {
                position,
                direction: Direction::Upward,
                slope: up,
            })
        }
    }

    /// The position that leaves, in the direction of its slope: the least slope of all, and the least
    /// position of equal ones; none where no slope is negative.
    pub fn steepest(&self) -> Result<Option<Leaving<F>>, Spill<F>>
        requires duals { HasDuals F.value self.now }
        ensures leaving { IfOk result (IsLeavingOf F.value self.now) }
        ensures spill { IfErr result (IsSlopesSpill F.value F.range self.now) }
    {
        let mut least = self.lesser(0)?;
        for position in 1..self.tableau.columns() {
            let next = self.lesser(position)?;
            least = steeper(least, next);
        }
        if least.slope.sign() < 0 {
            Ok(Some(least))
        } else {
            Ok(None)
        }
    }
}
