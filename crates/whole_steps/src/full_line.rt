//! A line with the numbers of all rows, and the first of the rows that move on it.
ghost use Rattle.std.specs.Prelude.{◌≡◌, ℕ, ◌+◌, ◌<◌, ◌≤◌, length, true, IfOk, IsTrue};
ghost use Rattle.walk_model.specs.Walks.{IsFirstMover};
ghost use Rattle.whole_steps.specs.Lines.{IsFullLine, IsMover, IsMoverAt, IsFirstBelow, model, at_of, inverse_at, is_moving, comes_before};

use crate::less::is_surely_less;
use crate::line::{Line, Mover, goes_towards};
use whole_inverse::{Obstacle, WholeInverse};

/// A line, the residuals of all rows where it begins, and their coordinates at the position: numerators over the determinant.
#[derive_where(Clone, Copy)]
pub struct FullLine<'a, N, I, M> {
    pub line: Line<'a, N, I>,
    pub residuals: &'a [M],
    pub coords: &'a [M],
}

impl<'a> FullLine<'a, i64, WholeInverse, i128> {
    /// A row as a mover, where it moves.
    pub fn mover_at(&self, row: u32) -> Option<Mover<u128>>
        requires full { IsFullLine self.now }
        requires row { row < length self.now.line.basis.now.rows.now }
        ensures { IsMoverAt self.now.line row result }
    {
        let sides = self.line.sides;
        let coords = self.coords;
        let residuals = self.residuals;
        let side = sides[row as usize];
        let coord = coords[row as usize];
        if !goes_towards(side, self.line.direction, coord) {
            return None;
        }
        let residual = residuals[row as usize];
        Some(Mover {
            row,
            residual: residual.unsigned_abs(),
            coord: coord.unsigned_abs(),
        })
    }

    /// Whether a row doesn't move, or surely comes after a mover. Of ratios whose leading bits agree it isn't said.
    #[inline(always)]
    pub(crate) fn comes_after(&self, first: &Mover<u128>, row: u32) -> bool
        requires full { IsFullLine self.now }
        requires first { IsMover self.now.line first.now }
        requires row { row < length self.now.line.basis.now.rows.now }
        ensures { IsTrue result → is_moving self.now.line row ≡ true → comes_before self.now.line first.now.row row ≡ true }
    {
        let sides = self.line.sides;
        let residuals = self.residuals;
        let coords = self.coords;
        let coord = coords[row as usize];
        let moves = goes_towards(sides[row as usize], self.line.direction, coord);
        let residual = residuals[row as usize].unsigned_abs();
        let size = coord.unsigned_abs();
        let here = Mover {
            row,
            residual,
            coord: size,
        };
        let later = is_surely_less(*first, here);
        !moves | later
    }

    /// Whether the first of the movers before a row is that of those up to it too. It may be so where this isn't said.
    fn stays_first(&self, best: &Option<Mover<u128>>, row: u32) -> bool
        requires full { IsFullLine self.now }
        requires row { row < length self.now.line.basis.now.rows.now }
        requires best { IsFirstBelow self.now.line row best.now }
        ensures { IsTrue result → IsFirstBelow self.now.line (row + 1) best.now }
    {
        match best {
            Some(first) => self.comes_after(first, row),
            None => false,
        }
    }

    /// The first of the movers up to a row, from that of those before it.
    fn one_more(&self, best: Option<Mover<u128>>, row: u32) -> Result<Option<Mover<u128>>, Obstacle>
        requires full { IsFullLine self.now }
        requires row { row < length self.now.line.basis.now.rows.now }
        requires best { IsFirstBelow self.now.line row best }
        ensures { IfOk result (IsFirstBelow self.now.line (row + 1)) }
    {
        match self.mover_at(row) {
            None => Ok(best),
            Some(mover) => {
                let next = self.line.joined(best, mover)?;
                Ok(Some(next))
            }
        }
    }

    /// The first row from `start` on that may come before the first of the movers so far; the number of rows where none
    /// does. That mover stays the same on the way, so that its parts stand in registers.
    fn next_rival(&self, best: Option<Mover<u128>>, start: u32) -> u32
        requires full { IsFullLine self.now }
        requires start { start ≤ length self.now.line.basis.now.rows.now }
        requires best { IsFirstBelow self.now.line start best }
        ensures from { start ≤ result }
        ensures within { result ≤ length self.now.line.basis.now.rows.now }
        ensures best { IsFirstBelow self.now.line result best }
    {
        let end = self.line.sides.len() as u32;
        for row in start..end {
            if !self.stays_first(&best, row) {
                return row;
            }
        }
        end
    }

    /// The row of the first of all movers.
    fn row_of(&self, best: Option<Mover<u128>>) -> u32
        requires full { IsFullLine self.now }
        requires some { (i : ℕ) × (i < length self.now.line.basis.now.rows.now) × (is_moving self.now.line i ≡ true) }
        requires best { IsFirstBelow self.now.line (length self.now.line.basis.now.rows.now) best }
        ensures { let l = self.now.line in IsFirstMover (model l) (at_of l) (inverse_at l) l.position l.direction result }
    {
        match best {
            Some(mover) => mover.row,
            None => unreachable!(),
        }
    }

    /// The row that enters: the first of the rows that move, of which there is one.
    pub fn first_mover(&self) -> Result<u32, Obstacle>
        requires full { IsFullLine self.now }
        requires some { (i : ℕ) × (i < length self.now.line.basis.now.rows.now) × (is_moving self.now.line i ≡ true) }
        ensures { let l = self.now.line in IfOk result (IsFirstMover (model l) (at_of l) (inverse_at l) l.position l.direction) }
    {
        let end = self.line.sides.len() as u32;
        let mut best = None;
        let mut row = 0;
        for step in 0..end {
            let rival = self.next_rival(best, row);
            if rival >= end {
                return Ok(self.row_of(best));
            }
            match self.one_more(best, rival) {
                Ok(next) => best = next,
                Err(obstacle) => return Err(obstacle),
            }
            row = rival + 1;
        }
        Ok(self.row_of(best))
    }
}
