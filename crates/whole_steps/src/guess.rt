//! A guess at the row that enters. Nothing is promised of it: it is tested.
ghost use Rattle.whole_steps.specs.Lines.{IsMover};
ghost use Rattle.whole_steps.specs.Passing.{IsDescent};

use crate::line::Mover;
use crate::passing::{Descent, sum_of};
use frac_core::List;
use std::alloc::Global;
use whole_inverse::Obstacle;

/// Rows that move, parted by one of them: those before it with what they add to the slope, and those after it.
#[derive(Drop)]
struct Parts {
    before: List<u32>,
    sum: i128,
    after: List<u32>,
}

impl<'a> Descent<'a> {
    /// The rows that move.
    fn movers(&self, alloc: Global) -> Result<List<u32>, Obstacle>
        requires descent { IsDescent self.now }
    {
        let mut found = List::new(alloc);
        for row in 0..self.full.line.sides.len() as u32 {
            if self.full.mover_at(row).is_some() {
                found.add(row)?;
            }
        }
        Ok(found)
    }

    /// What passing a row adds to the slope.
    fn adding(&self, row: u32) -> Result<i128, Obstacle>
        requires descent { IsDescent self.now }
    {
        if row as usize >= self.full.line.sides.len() {
            return Err(Obstacle::TooWide);
        }
        let more = self.passing(row)?;
        Ok(more)
    }

    /// Puts a row on its side of another one.
    fn put(&self, parts: &mut Parts, row: u32, pivot: Mover<u128>) -> Result<(), Obstacle>
        requires descent { IsDescent self.now }
        requires pivot { IsMover self.now.full.line pivot }
    {
        if row as usize >= self.full.line.sides.len() || row == pivot.row {
            return Ok(());
        }
        if self.is_passed(row, pivot)? {
            parts.sum = sum_of(parts.sum, self.passing(row)?)?;
            parts.before.add(row)?;
        } else {
            parts.after.add(row)?;
        }
        Ok(())
    }

    /// Rows parted by one of them.
    fn parted(&self, alloc: Global, rows: &[u32], pivot: Mover<u128>) -> Result<Parts, Obstacle>
        requires descent { IsDescent self.now }
        requires pivot { IsMover self.now.full.line pivot }
    {
        let mut parts = Parts {
            before: List::new(alloc),
            sum: 0,
            after: List::new(alloc),
        };
        for i in 0..rows.len() {
            self.put(&mut parts, rows[i], pivot)?;
        }
        Ok(parts)
    }

    /// The row whose passing takes the slope from below 0: the rows that are left are parted by one of them, and the
    /// search goes on on the side where the slope turns.
    pub(crate) fn guess(&self, alloc: Global, start: i128) -> Result<u32, Obstacle>
        requires descent { IsDescent self.now }
    {
        let mut left = self.movers(alloc)?;
        let mut slope = start;
        for _ in 0..self.full.line.sides.len() {
            let rows = left.as_slice();
            if rows.is_empty() {
                return Err(Obstacle::TooWide);
            }
            let row = rows[rows.len() / 2];
            let pivot = match self.mover(row as usize) {
                Some(pivot) => pivot,
                None => return Err(Obstacle::TooWide),
            };
            let parts = self.parted(alloc, rows, pivot)?;
            let reached = sum_of(slope, parts.sum)?;
            if reached >= 0 {
                left = parts.before;
            } else {
                let past = sum_of(reached, self.adding(row)?)?;
                if past >= 0 {
                    return Ok(row);
                }
                slope = past;
                left = parts.after;
            }
        }
        Err(Obstacle::TooWide)
    }
}
