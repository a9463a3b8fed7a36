//! A first guess at the row that enters, by the leading bits of all numbers. Nothing is promised of it: it is tested.
//!
//! A sample of the rows tells a mover that likely comes after the one that enters, so that its rivals alone are looked at. These are
//! parted by the leading bits of their ratios until those are left at which the slope turns. Where they are more than one, their order is
//! looked at in full.
ghost use Rattle.std.specs.Prelude.{IfOk};
ghost use Rattle.whole_steps.specs.Passing.{IsDescent};
ghost use Rattle.whole_steps.specs.Rivals.{IsRivals};

use crate::line::Mover;
use crate::passing::{Descent, Guess};
use crate::rivals::Rivals;
use frac_core::List;
use std::alloc::Global;
use std::cmp::Ordering;
use whole_inverse::{Obstacle, room_for};

/// A row that moves, by the leading bits of its residual and its coordinate, and about what its passing adds to the slope.
#[derive(Clone, Copy)]
struct Sight {
    row: u32,
    residual: u64,
    coord: u64,
    weight: u128,
}

/// How many of their last bits residuals and coordinates are seen without.
#[derive(Clone, Copy)]
struct Scope {
    residual: u32,
    coord: u32,
}

/// Rows as they are seen, the slope that passing some of them is to make up, and about what all of them add to it.
#[derive(Drop)]
struct View {
    sights: List<Sight>,
    slope: u128,
    sum: u128,
}

/// Rows that move, parted by one of them: those before it with about what they add to the slope, those of the same ratio, and those after it.
#[derive(Drop)]
struct Parting {
    before: List<Sight>,
    sum: u128,
    same: List<u32>,
    own: u128,
    after: List<Sight>,
}

/// A number without its last bits.
fn leading(number: u128, last: u32) -> u64 {
    u64::try_from(number.wrapping_shr(last)).unwrap_or(u64::MAX)
}

/// So many last bits leave 63 of a number.
fn last_bits(number: u128) -> u32 {
    65u32.saturating_sub(number.leading_zeros())
}

/// How the ratios of two rows compare, as their leading bits have it.
fn order_of(one: Sight, two: Sight) -> Ordering {
    let left = u128::from(one.residual).wrapping_mul(u128::from(two.coord));
    let right = u128::from(two.residual).wrapping_mul(u128::from(one.coord));
    left.cmp(&right)
}

/// Rows parted by one of them.
fn parted(alloc: Global, sights: &[Sight], pivot: Sight) -> Result<Parting, Obstacle> {
    let mut parting = Parting {
        before: room_for(alloc, SAMPLE)?,
        sum: 0,
        same: List::new(alloc),
        own: 0,
        after: room_for(alloc, SAMPLE)?,
    };
    for i in 0..sights.len() {
        let sight = sights[i];
        match order_of(sight, pivot) {
            Ordering::Less => {
                parting.sum = parting.sum.saturating_add(sight.weight);
                parting.before.add(sight)?;
            }
            Ordering::Equal => {
                parting.own = parting.own.saturating_add(sight.weight);
                parting.same.add(sight.row)?;
            }
            Ordering::Greater => parting.after.add(sight)?,
        }
    }
    Ok(parting)
}

/// The rows of the ratio at which the slope turns.
fn turning_rows(alloc: Global, sights: List<Sight>, slope: u128) -> Result<List<u32>, Obstacle> {
    let mut left = sights;
    let mut need = slope;
    for _ in 0..left.as_slice().len() {
        let rows = left.as_slice();
        if rows.is_empty() {
            return Err(Obstacle::TooWide);
        }
        let pivot = rows[rows.len() / 2];
        let parting = parted(alloc, rows, pivot)?;
        if parting.sum >= need {
            left = parting.before;
        } else {
            let past = parting.sum.saturating_add(parting.own);
            if past >= need {
                return Ok(parting.same);
            }
            need = need.saturating_sub(past);
            left = parting.after;
        }
    }
    Err(Obstacle::TooWide)
}

/// How movers are seen, so that no part has more than 63 bits.
fn scope_of(movers: &[Mover<u128>]) -> Scope {
    let mut residual: u128 = 0;
    let mut coord: u128 = 0;
    for i in 0..movers.len() {
        residual |= movers[i].residual;
        coord |= movers[i].coord;
    }
    Scope {
        residual: last_bits(residual),
        coord: last_bits(coord),
    }
}

/// The only row of a list.
fn only(rows: &[u32]) -> Result<u32, Obstacle> {
    match rows {
        [row] => Ok(*row),
        _ => Err(Obstacle::TooWide),
    }
}

/// So many rows are looked at for a mover whose rivals are few.
const SAMPLE: usize = 128;

impl View {
    /// Of a sample of rows, which stand so many apart, one that likely comes after the row that enters: where it is passed, a quarter more than
    /// the slope is made up, and four rows more.
    fn later_row(self, alloc: Global, apart: u128) -> Result<u32, Obstacle> {
        let share = self.slope.checked_div(apart).unwrap_or(0);
        let count = self.sights.as_slice().len() as u128;
        let mean = self.sum.checked_div(count).unwrap_or(0);
        let slope = share
            .saturating_add(share / 4)
            .saturating_add(mean.saturating_mul(4));
        let rows = turning_rows(alloc, self.sights, slope)?;
        match rows.as_slice().first() {
            Some(row) => Ok(*row),
            None => Err(Obstacle::TooWide),
        }
    }

    /// The row whose passing takes the slope from below 0.
    fn turning_row(self, alloc: Global) -> Result<u32, Obstacle> {
        let rows = turning_rows(alloc, self.sights, self.slope)?;
        only(rows.as_slice())
    }
}

impl<'a> Descent<'a> {
    /// About what passing a row adds to the slope, where its coordinate has these leading bits.
    fn weight(&self, row: u32, coord: u64) -> u128 {
        let rows = self.full.line.basis.rows;
        if row as usize >= rows.len() {
            return 0;
        }
        let chosen = &rows[row as usize];
        let constant = i128::from(chosen.up0).wrapping_add(i128::from(chosen.down0));
        let linear = i128::from(chosen.up1).wrapping_add(i128::from(chosen.down1));
        let theta = self.theta;
        let cost = constant
            .wrapping_mul(theta.under)
            .wrapping_add(linear.wrapping_mul(theta.over));
        u128::from(coord).saturating_mul(cost.unsigned_abs())
    }

    /// Movers as they are seen.
    fn view(&self, alloc: Global, movers: &[Mover<u128>], start: i128) -> Result<View, Obstacle> {
        let scope = scope_of(movers);
        let mut sights = room_for(alloc, movers.len())?;
        let mut sum: u128 = 0;
        for i in 0..movers.len() {
            let mover = movers[i];
            let coord = leading(mover.coord, scope.coord);
            let weight = self.weight(mover.row, coord);
            sum = sum.saturating_add(weight);
            sights.add(Sight {
                row: mover.row,
                residual: leading(mover.residual, scope.residual),
                coord,
                weight,
            })?;
        }
        Ok(View {
            sights,
            slope: start.unsigned_abs().wrapping_shr(scope.coord),
            sum,
        })
    }

    /// The movers among so many rows, which stand so far apart.
    fn movers_among(
        &self,
        alloc: Global,
        rows: usize,
        apart: usize,
    ) -> Result<List<Mover<u128>>, Obstacle>
        requires descent { IsDescent self.now }
    {
        let mut found = room_for(alloc, SAMPLE)?;
        let mut row: usize = 0;
        for _ in 0..rows {
            if let Some(mover) = self.mover(row) {
                found.add(mover)?;
            }
            row = row.wrapping_add(apart);
        }
        Ok(found)
    }

    /// The movers among the marked rows.
    fn marked_movers(&self, alloc: Global, marks: &[bool]) -> Result<List<Mover<u128>>, Obstacle>
        requires descent { IsDescent self.now }
    {
        let mut found = room_for(alloc, SAMPLE)?;
        for row in 0..marks.len() {
            if marks[row] {
                if let Some(mover) = self.mover(row) {
                    found.add(mover)?;
                }
            }
        }
        Ok(found)
    }

    /// The rivals of a mover that likely comes after the row that enters. It refuses where a sample isn't much less than all rows.
    fn sampled_rivals(&self, alloc: Global, start: i128) -> Result<Rivals, Obstacle>
        requires descent { IsDescent self.now }
        ensures { IfOk result (IsRivals self.now.full.line) }
    {
        let apart = self.full.line.sides.len() / SAMPLE;
        if apart < 2 {
            return Err(Obstacle::TooWide);
        }
        let movers = self.movers_among(alloc, SAMPLE, apart)?;
        let view = self.view(alloc, movers.as_slice(), start)?;
        let row = view.later_row(alloc, apart as u128)?;
        self.rivals_at(alloc, row)
    }

    /// A guess among the rivals of a mover.
    fn guess_among(&self, alloc: Global, rivals: Rivals, start: i128) -> Result<Guess, Obstacle>
        requires descent { IsDescent self.now }
        requires rivals { IsRivals self.now.full.line rivals }
        ensures { IfOk result (λ g. IsRivals self.now.full.line g.rivals) }
    {
        let movers = self.marked_movers(alloc, rivals.marks.as_slice())?;
        let view = self.view(alloc, movers.as_slice(), start)?;
        let row = view.turning_row(alloc)?;
        Ok(Guess { row, rivals })
    }

    /// A guess among all rows.
    fn guess_among_all(&self, alloc: Global, start: i128) -> Result<Guess, Obstacle>
        requires descent { IsDescent self.now }
        ensures { IfOk result (λ g. IsRivals self.now.full.line g.rivals) }
    {
        let movers = self.movers_among(alloc, self.full.line.sides.len(), 1)?;
        let view = self.view(alloc, movers.as_slice(), start)?;
        let row = view.turning_row(alloc)?;
        let rivals = self.rivals_at(alloc, row)?;
        Ok(Guess { row, rivals })
    }

    /// The row whose passing takes the slope from below 0, as leading bits have it.
    pub(crate) fn first_guess(&self, alloc: Global, start: i128) -> Result<Guess, Obstacle>
        requires descent { IsDescent self.now }
        ensures { IfOk result (λ g. IsRivals self.now.full.line g.rivals) }
    {
        match self.sampled_rivals(alloc, start) {
            Ok(rivals) => self.guess_among(alloc, rivals, start),
            Err(_) => self.guess_among_all(alloc, start),
        }
    }
}
