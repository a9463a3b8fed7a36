//! A line of which the rows near the fit alone are looked at.
//!
//! All other rows have residuals of at least the reach on their sides, and coordinates within a bound, both times the factor of the row,
//! which the ratio of the row so loses. Where that makes their ratios greater than that of the first near row that moves, this is the
//! first of all.
ghost use Rattle.std.specs.Prelude.{◌≡◌, ℕ, ◌+◌, ◌<◌, ◌≤◌, length, slice_index, true, IfOk, IfSome, IsTrue, pos};
ghost use Rattle.basis_model.specs.Basis.{coord};
ghost use Rattle.walk_model.specs.Walks.{IsFirstMover};
ghost use Rattle.whole_inverse.specs.Shares.{share};
ghost use Rattle.whole_steps.specs.Lines.{IsNearLine, IsLook, IsMover, IsMoverAt, IsFirstOf, AreFarAfter, model, at_of, inverse_at, over_of, residual_of, is_moving, comes_before};

use crate::bound::{Pair, is_product_less, most_of};
use crate::less::is_surely_less;
use crate::line::{Line, Mover, goes_towards};
use whole_inverse::{Obstacle, WholeInverse};
use whole_solution::{Column, Near};

/// A line, the coefficients where it begins, and the rows near an earlier fit.
#[derive(Clone, Copy)]
pub struct NearLine<'a> {
    pub line: Line<'a, i64, WholeInverse>,
    pub coef: &'a [i128],
    pub near: &'a Near,
}

/// A near line with what its rows are multiplied by.
#[derive(Clone, Copy)]
pub struct Look<'a> {
    pub near_line: NearLine<'a>,
    pub coef: Column<'a>,
    pub column: Column<'a>,
}

impl<'a> Look<'a> {
    /// The numerator of the coordinate of a row at the position.
    #[inline(always)]
    fn coord_at<const NARROW: bool>(&self, row: u32) -> Result<i128, Obstacle>
        requires look { IsLook self.now }
        requires row { row < length self.now.near_line.line.basis.now.rows.now }
        ensures { let l = self.now.near_line.line in IfOk result (λ n. share n (over_of l) ≡ coord (model l) (inverse_at l) row l.position) }
    {
        let basis = self.near_line.line.basis;
        let rows = basis.rows;
        let chosen = &rows[row as usize];
        match self.column.product_in::<NARROW>(chosen.x.as_slice()) {
            Some(number) => Ok(number),
            None => Err(Obstacle::TooWide),
        }
    }

    /// The numerator of the residual of a row.
    #[inline(always)]
    fn residual_at<const NARROW: bool>(&self, row: u32) -> Result<i128, Obstacle>
        requires look { IsLook self.now }
        requires row { row < length self.now.near_line.line.basis.now.rows.now }
        ensures { let l = self.now.near_line.line in IfOk result (λ n. share n (over_of l) ≡ residual_of l row) }
    {
        let basis = self.near_line.line.basis;
        let number = basis.residual_at::<NARROW>(&self.coef, row)?;
        Ok(number)
    }

    /// A row as a mover, where it moves.
    #[inline(always)]
    fn mover_at<const NARROW: bool>(&self, row: u32) -> Result<Option<Mover<u128>>, Obstacle>
        requires look { IsLook self.now }
        requires row { row < length self.now.near_line.line.basis.now.rows.now }
        ensures { IfOk result (IsMoverAt self.now.near_line.line row) }
    {
        let line = self.near_line.line;
        let sides = line.sides;
        let side = sides[row as usize];
        let coord = self.coord_at::<NARROW>(row)?;
        if !goes_towards(side, line.direction, coord) {
            return Ok(None);
        }
        let residual = self.residual_at::<NARROW>(row)?;
        Ok(Some(Mover {
            row,
            residual: residual.unsigned_abs(),
            coord: coord.unsigned_abs(),
        }))
    }

    /// The first of the movers among the first near rows, from that of those before the last of them.
    fn one_more(&self, best: Option<Mover<u128>>, k: usize) -> Result<Option<Mover<u128>>, Obstacle>
        requires look { IsLook self.now }
        requires place { k < length self.now.near_line.near.now.rows }
        requires best { IsFirstOf self.now.near_line.line (slice_index self.now.near_line.near.now.rows) k best }
        ensures { IfOk result (IsFirstOf self.now.near_line.line (slice_index self.now.near_line.near.now.rows) (k + 1)) }
    {
        let near = self.near_line.near;
        let row = near.rows.as_slice()[k];
        match self.mover_at::<false>(row)? {
            None => Ok(best),
            Some(mover) => {
                let next = self.near_line.line.joined(best, mover)?;
                Ok(Some(next))
            }
        }
    }

    /// Whether a row doesn't move, or surely comes after a mover. It may be so where this isn't said.
    #[inline(always)]
    fn comes_after<const NARROW: bool>(&self, first: &Mover<u128>, row: u32) -> bool
        requires look { IsLook self.now }
        requires first { IsMover self.now.near_line.line first.now }
        requires row { row < length self.now.near_line.line.basis.now.rows.now }
        ensures { let l = self.now.near_line.line in IsTrue result → is_moving l row ≡ true → comes_before l first.now.row row ≡ true }
    {
        match self.mover_at::<NARROW>(row) {
            Ok(None) => true,
            Ok(Some(here)) => is_surely_less(*first, here),
            Err(_) => false,
        }
    }

    /// Whether the first of the movers before a place is that of those up to it too. It may be so where this isn't said.
    #[inline(always)]
    fn stays_first<const NARROW: bool>(&self, best: &Option<Mover<u128>>, k: usize) -> bool
        requires look { IsLook self.now }
        requires place { k < length self.now.near_line.near.now.rows }
        requires best { IsFirstOf self.now.near_line.line (slice_index self.now.near_line.near.now.rows) k best.now }
        ensures { IsTrue result → IsFirstOf self.now.near_line.line (slice_index self.now.near_line.near.now.rows) (k + 1) best.now }
    {
        let near = self.near_line.near;
        match best {
            Some(first) => self.comes_after::<NARROW>(first, near.rows.as_slice()[k]),
            None => false,
        }
    }

    /// The first place from `start` on whose row may come before the first of the movers so far; the end where none does. That
    /// mover stays the same on the way, and isn't copied.
    fn next_rival<const NARROW: bool>(&self, best: &Option<Mover<u128>>, start: usize) -> usize
        requires look { IsLook self.now }
        requires start { start ≤ length self.now.near_line.near.now.rows }
        requires best { IsFirstOf self.now.near_line.line (slice_index self.now.near_line.near.now.rows) start best.now }
        ensures from { start ≤ result }
        ensures within { result ≤ length self.now.near_line.near.now.rows }
        ensures best { IsFirstOf self.now.near_line.line (slice_index self.now.near_line.near.now.rows) result best.now }
    {
        let end = self.near_line.near.rows.as_slice().len();
        for k in start..end {
            if !self.stays_first::<NARROW>(best, k) {
                return k;
            }
        }
        end
    }

    /// The same, in numbers of 64 bits where all products have so many.
    fn rival_from(&self, best: &Option<Mover<u128>>, start: usize) -> usize
        requires look { IsLook self.now }
        requires start { start ≤ length self.now.near_line.near.now.rows }
        requires best { IsFirstOf self.now.near_line.line (slice_index self.now.near_line.near.now.rows) start best.now }
        ensures from { start ≤ result }
        ensures within { result ≤ length self.now.near_line.near.now.rows }
        ensures best { IsFirstOf self.now.near_line.line (slice_index self.now.near_line.near.now.rows) result best.now }
    {
        if self.coef.is_narrow() && self.column.is_narrow() {
            self.next_rival::<true>(best, start)
        } else {
            self.next_rival::<false>(best, start)
        }
    }

    /// The first of the near rows that move.
    fn first_near(&self) -> Result<Option<Mover<u128>>, Obstacle>
        requires look { IsLook self.now }
        ensures { let near = self.now.near_line.near.now in IfOk result (IsFirstOf self.now.near_line.line (slice_index near.rows) (length near.rows)) }
    {
        let end = self.near_line.near.rows.as_slice().len();
        let mut best = None;
        let mut place = 0;
        for step in 0..end {
            let rival = self.rival_from(&best, place);
            if rival >= end {
                return Ok(best);
            }
            match self.one_more(best, rival) {
                Ok(next) => best = next,
                Err(obstacle) => return Err(obstacle),
            }
            place = rival + 1;
        }
        Ok(best)
    }
}

impl<'a> NearLine<'a> {
    /// What its rows are multiplied by.
    fn look(&self) -> Look<'a>
        requires near { IsNearLine self.now }
        ensures look { IsLook result }
        ensures same { result.near_line ≡ self.now }
    {
        let basis = self.line.basis;
        let inverse = basis.inverse;
        Look {
            near_line: *self,
            coef: Column::of(self.coef, basis.limit),
            column: Column::of(inverse.numerators(self.line.position), basis.limit),
        }
    }

    /// Whether a mover comes before all rows that are far and move. It may where this isn't said.
    fn precedes_far(&self, first: Mover<u128>) -> bool
        requires near { IsNearLine self.now }
        requires first { IsMover self.now.line first }
        ensures { IsTrue result → AreFarAfter self.now first.row }
    {
        let near = self.near;
        let inverse = self.line.basis.inverse;
        let column = inverse.numerators(self.line.position);
        let Some(most) = most_of(&near.ranges, column) else {
            return false;
        };
        let residuals = Pair {
            left: first.residual,
            right: near.reach,
        };
        let coords = Pair {
            left: most,
            right: first.coord,
        };
        let determinants = Pair {
            left: near.determinant.unsigned_abs(),
            right: inverse.determinant().unsigned_abs(),
        };
        is_product_less(residuals, coords, determinants)
    }

    /// The row that enters, where the near rows tell: the first of the rows that move. None where no near row moves, or where a far
    /// row might come before the first that does.
    pub fn first_mover(&self) -> Result<Option<u32>, Obstacle>
        requires near { IsNearLine self.now }
        ensures { let l = self.now.line in IfOk result (λ o. IfSome o (IsFirstMover (model l) (at_of l) (inverse_at l) l.position l.direction)) }
    {
        let look = self.look();
        match look.first_near()? {
            None => Ok(None),
            Some(first) => {
                if self.precedes_far(first) {
                    Ok(Some(first.row))
                } else {
                    Ok(None)
                }
            }
        }
    }
}
