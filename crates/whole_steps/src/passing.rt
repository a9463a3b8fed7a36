//! What rows that are passed add to a slope, and the test of the row that enters.
ghost use Rattle.std.specs.Prelude.{◌≡◌, ℕ, ℤ, ◌<◌, ◌+ℤ◌, ◌*ℤ◌, length, pos, unsigned_abs, ◌&&◌, IfOk, IfSome, IsTrue};
ghost use Rattle.rational_laws.specs.Fraction.{rational};
ghost use Rattle.rational_laws.specs.Rational.{◌+ℚ◌};
ghost use Rattle.whole_steps.specs.Lines.{IsMover, is_moving, comes_before};
ghost use Rattle.whole_steps.specs.Rivals.{AreMarked, IsRivals};
ghost use Rattle.whole_steps.specs.Passing.{IsDescent, number_value, first_slope, passing_of, passed_by, slope_until, Enters};

use crate::full_line::FullLine;
use crate::less::is_surely_less;
use crate::line::Mover;
use crate::quantile::Quantile;
use crate::rivals::Rivals;
use std::alloc::Global;
use whole_inverse::{Obstacle, WholeInverse};

/// A line along which the loss falls, with the numbers of all rows, and the quantile.
#[derive(Clone, Copy)]
pub struct Descent<'a> {
    pub full: FullLine<'a, i64, WholeInverse, i128>,
    pub theta: Quantile<i128>,
}

/// A guess at the row that enters, and a mover that comes no earlier, with its rivals. Of the row nothing is promised.
#[derive(Drop)]
pub(crate) struct Guess {
    pub row: u32,
    pub rivals: Rivals,
}

/// The sum of two costs.
fn cost_sum(up: i64, down: i64) -> Result<i128, Obstacle>
    ensures { IfOk result (λ n. n ≡ up +ℤ down) }
{
    match i128::from(up).checked_add(i128::from(down)) {
        Some(sum) => Ok(sum),
        None => Err(Obstacle::TooWide),
    }
}

/// The size of a number times another one.
fn size_times(number: i128, weight: i128) -> Result<i128, Obstacle>
    ensures { IfOk result (λ n. n ≡ pos (unsigned_abs number) *ℤ weight) }
{
    match number.checked_abs() {
        Some(size) => match size.checked_mul(weight) {
            Some(product) => Ok(product),
            None => Err(Obstacle::TooWide),
        },
        None => Err(Obstacle::TooWide),
    }
}

/// The sum of two numbers.
pub fn sum_of(a: i128, b: i128) -> Result<i128, Obstacle>
    ensures { IfOk result (λ n. n ≡ a +ℤ b) }
{
    match a.checked_add(b) {
        Some(sum) => Ok(sum),
        None => Err(Obstacle::TooWide),
    }
}

impl<'a> Descent<'a> {
    /// What passing a row adds to the slope.
    pub(crate) fn passing(&self, row: u32) -> Result<i128, Obstacle>
        requires descent { IsDescent self.now }
        requires row { row < length self.now.full.line.basis.now.rows.now }
        ensures { IfOk result (λ n. rational (number_value self.now n) ≡ passing_of self.now row) }
    {
        let full = self.full;
        let basis = full.line.basis;
        let rows = basis.rows;
        let chosen = &rows[row as usize];
        let constant = cost_sum(chosen.up0, chosen.down0)?;
        let linear = cost_sum(chosen.up1, chosen.down1)?;
        let weight = self.theta.number(constant, linear)?;
        let coords = full.coords;
        let number = size_times(coords[row as usize], weight)?;
        Ok(number)
    }

    /// Whether a row moves, and is passed before another one.
    pub(crate) fn is_passed(&self, row: u32, target: Mover<u128>) -> Result<bool, Obstacle>
        requires descent { IsDescent self.now }
        requires row { row < length self.now.full.line.basis.now.rows.now }
        requires target { IsMover self.now.full.line target }
        ensures { IfOk result (λ b. b ≡ (is_moving self.now.full.line row && comes_before self.now.full.line row target.row)) }
    {
        let full = self.full;
        match full.mover_at(row) {
            None => Ok(false),
            Some(mover) => {
                if mover.row == target.row {
                    return Ok(false);
                }
                if is_surely_less(mover, target) {
                    return Ok(true);
                }
                let before = full.line.precedes(mover, target)?;
                Ok(before)
            }
        }
    }

    /// The slope after a row, where it is passed before another one.
    fn after(&self, row: u32, target: Mover<u128>, slope: i128) -> Result<i128, Obstacle>
        requires descent { IsDescent self.now }
        requires row { row < length self.now.full.line.basis.now.rows.now }
        requires target { IsMover self.now.full.line target }
        ensures { IfOk result (λ n. rational (number_value self.now n) ≡ rational (number_value self.now slope) +ℚ passed_by self.now target.row row) }
    {
        if self.is_passed(row, target)? {
            let more = self.passing(row)?;
            let sum = sum_of(slope, more)?;
            return Ok(sum);
        }
        Ok(slope)
    }

    /// The slope after all rows that are passed before a row, of which those that may come before it are marked.
    fn slope_before(
        &self,
        target: Mover<u128>,
        start: i128,
        marks: &[bool],
    ) -> Result<i128, Obstacle>
        requires descent { IsDescent self.now }
        requires target { IsMover self.now.full.line target }
        requires marks { AreMarked self.now.full.line target.row marks.now }
        requires start { rational (number_value self.now start) ≡ first_slope self.now }
        ensures { IfOk result (λ n. rational (number_value self.now n) ≡ slope_until self.now target.row) }
    {
        let mut slope = start;
        for row in 0..marks.len() {
            if marks[row] {
                match self.after(row as u32, target, slope) {
                    Ok(next) => slope = next,
                    Err(obstacle) => return Err(obstacle),
                }
            }
        }
        Ok(slope)
    }

    /// Whether passing a row takes the slope from below 0.
    fn turns(&self, target: Mover<u128>, start: i128, marks: &[bool]) -> Result<bool, Obstacle>
        requires descent { IsDescent self.now }
        requires target { IsMover self.now.full.line target }
        requires marks { AreMarked self.now.full.line target.row marks.now }
        requires start { rational (number_value self.now start) ≡ first_slope self.now }
        ensures { IfOk result (λ b. IsTrue b → Enters self.now target.row) }
    {
        let before = self.slope_before(target, start, marks)?;
        if before >= 0 {
            return Ok(false);
        }
        let own = self.passing(target.row)?;
        let past = sum_of(before, own)?;
        if past < 0 {
            return Ok(false);
        }
        Ok(true)
    }

    /// A row as a mover, if it is one.
    pub(crate) fn mover(&self, row: usize) -> Option<Mover<u128>>
        requires descent { IsDescent self.now }
        ensures { IfSome result (λ m. IsMover self.now.full.line m) }
    {
        let full = self.full;
        if row >= full.line.sides.len() {
            return None;
        }
        full.mover_at(row as u32)
    }

    /// A row as a mover, with its rivals.
    pub(crate) fn rivals_at(&self, alloc: Global, row: u32) -> Result<Rivals, Obstacle>
        requires descent { IsDescent self.now }
        ensures { IfOk result (IsRivals self.now.full.line) }
    {
        match self.mover(row as usize) {
            Some(mover) => {
                let rivals = self.full.rivals(alloc, mover)?;
                Ok(rivals)
            }
            None => Err(Obstacle::TooWide),
        }
    }

    /// The row that enters, from a guess at it, which comes no later than a mover with these rivals.
    fn tested(&self, guess: &Guess, start: i128) -> Result<u32, Obstacle>
        requires descent { IsDescent self.now }
        requires rivals { IsRivals self.now.full.line guess.now.rivals }
        requires start { rational (number_value self.now start) ≡ first_slope self.now }
        ensures { IfOk result (Enters self.now) }
    {
        match self.mover(guess.row as usize) {
            Some(target) => {
                if !self.full.is_within(target, &guess.rivals)? {
                    return Err(Obstacle::TooWide);
                }
                if self.turns(target, start, guess.rivals.marks.as_slice())? {
                    Ok(target.row)
                } else {
                    Err(Obstacle::TooWide)
                }
            }
            None => Err(Obstacle::TooWide),
        }
    }

    /// The row that enters, from a guess by leading bits, or from one in full where that doesn't stand the test.
    pub(crate) fn entering_row(&self, alloc: Global, start: i128) -> Result<u32, Obstacle>
        requires descent { IsDescent self.now }
        requires start { rational (number_value self.now start) ≡ first_slope self.now }
        ensures { IfOk result (Enters self.now) }
    {
        if let Ok(guess) = self.first_guess(alloc, start) {
            if let Ok(row) = self.tested(&guess, start) {
                return Ok(row);
            }
        }
        let row = self.guess(alloc, start)?;
        let rivals = self.rivals_at(alloc, row)?;
        let row = self.tested(&Guess { row, rivals }, start)?;
        Ok(row)
    }
}
