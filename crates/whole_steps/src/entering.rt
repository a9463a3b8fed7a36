//! The row that enters at a breakpoint.
//!
//! Rows near the fit are asked first: where one of them surely comes before every row that isn't near, no other row is looked at.
ghost use Rattle.std.specs.Prelude.{◌≡◌, ℕ, ◌<◌, length, true, IfOk, IfSome};
ghost use Rattle.pivot_model.specs.Steps.{moves};
ghost use Rattle.walk_model.specs.Walks.{IsFirstMover};
ghost use Rattle.whole_steps.specs.Lines.{IsFullLine};
ghost use Rattle.whole_steps.specs.Stations.{IsStation, model, at_of, inverse_at};
ghost use Rattle.whole_steps.specs.Entering.{IsLineOf, AreRowNumbers};

use crate::full_line::FullLine;
use crate::line::Line;
use crate::near_line::NearLine;
use crate::station::Station;
use frac_core::List;
use pivot_model::Direction;
use std::alloc::Global;
use whole_inverse::{Obstacle, WholeInverse};
use whole_solution::row_products;

/// The numerators of the residuals of all rows, and of their coordinates at a position that leaves.
#[derive(Drop)]
pub struct RowNumbers {
    pub residuals: List<i128>,
    pub coords: List<i128>,
}

impl<'a> Station<'a> {
    /// The line along which a position leaves in a direction.
    pub fn line(&self, position: u32, direction: Direction) -> Line<'a, i64, WholeInverse>
        requires station { IsStation self.now }
        requires position { position < length self.now.basis.now.inverse.now.columns }
        ensures { IsLineOf self.now position direction result }
    {
        let solution = self.solution;
        Line {
            basis: self.basis,
            sides: solution.sides.as_slice(),
            position,
            direction,
        }
    }

    /// The residuals of all rows, and their coordinates at a position.
    pub fn row_numbers(&self, alloc: Global, position: u32) -> Result<RowNumbers, Obstacle>
        requires station { IsStation self.now }
        requires position { position < length self.now.basis.now.inverse.now.columns }
        ensures { IfOk result (AreRowNumbers self.now position) }
    {
        let basis = self.basis;
        let residuals = basis.all_residuals(alloc, self.solution)?;
        let column = basis.inverse.numerators(position);
        let coords = row_products(alloc, basis.rows, column, basis.limit)?;
        Ok(RowNumbers { residuals, coords })
    }

    /// The first of the near rows that move, where it surely comes before every other row that does.
    pub fn first_near(&self, position: u32, direction: Direction) -> Result<Option<u32>, Obstacle>
        requires station { IsStation self.now }
        requires position { position < length self.now.basis.now.inverse.now.columns }
        ensures { IfOk result (λ o. IfSome o (IsFirstMover (model self.now) (at_of self.now) (inverse_at self.now) position direction)) }
    {
        let solution = self.solution;
        let near = NearLine {
            line: self.line(position, direction),
            coef: solution.coef.as_slice(),
            near: &solution.near,
        };
        let row = near.first_mover()?;
        Ok(row)
    }

    /// The first of all rows that move.
    fn first_of_all(
        &self,
        alloc: Global,
        position: u32,
        direction: Direction,
    ) -> Result<u32, Obstacle>
        requires station { IsStation self.now }
        requires position { position < length self.now.basis.now.inverse.now.columns }
        requires some { (i : ℕ) × (i < length self.now.basis.now.rows.now) × (moves (model self.now) (at_of self.now) (inverse_at self.now) position direction i ≡ true) }
        ensures { IfOk result (IsFirstMover (model self.now) (at_of self.now) (inverse_at self.now) position direction) }
    {
        let numbers = self.row_numbers(alloc, position)?;
        let full = FullLine {
            line: self.line(position, direction),
            residuals: numbers.residuals.as_slice(),
            coords: numbers.coords.as_slice(),
        };
        let row = full.first_mover()?;
        Ok(row)
    }

    /// The row that enters where a position leaves in a direction, if some row moves: the first of those that do.
    pub fn first_mover(
        &self,
        alloc: Global,
        position: u32,
        direction: Direction,
    ) -> Result<u32, Obstacle>
        requires station { IsStation self.now }
        requires position { position < length self.now.basis.now.inverse.now.columns }
        requires some { (i : ℕ) × (i < length self.now.basis.now.rows.now) × (moves (model self.now) (at_of self.now) (inverse_at self.now) position direction i ≡ true) }
        ensures { IfOk result (IsFirstMover (model self.now) (at_of self.now) (inverse_at self.now) position direction) }
    {
        match self.first_near(position, direction) {
            Ok(Some(row)) => Ok(row),
            Ok(None) => self.first_of_all(alloc, position, direction),
            Err(obstacle) => Err(obstacle),
        }
    }
}
