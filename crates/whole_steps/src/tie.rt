//! The order of two ratios whose first entries agree, entry by entry.
//!
//! Further entries stand at the rows of the basis in ascending order, and at the rows themselves. Those of both rows are made one
//! at a time, and none is made after the first that differs.
ghost use Rattle.std.specs.Prelude.{◌≡◌, ◌≢◌, ◌↔◌, ℤ, suc, ◌*◌, ◌<◌, ◌≤◌, length, slice_index, IfOk, IsTrue, pos};
ghost use Rattle.std.specs.Ordering.{nat_cmp};
ghost use Rattle.std.specs.declared.cmp.Ordering.TheVariants.{Equal};
ghost use Rattle.rational_laws.specs.Order.{cmp_ℚ};
ghost use Rattle.loss_model.specs.declared.vertex.Side.TheVariants.{Down};
ghost use Rattle.basis_model.specs.Lexicographic.{lex_cmp};
ghost use Rattle.whole_inverse.specs.Shares.{share};
ghost use Rattle.whole_steps.specs.Lines.{IsLine, IsMover, at_of, comes_before, ratio_of};
ghost use Rattle.whole_steps.specs.Ties.{entry_on, IsTied, IsEntryAt, IsNextHeld};

use crate::line::{Line, Mover};
use loss_model::Side;
use std::cmp::Ordering;
use whole_inverse::{Obstacle, WholeInverse};
use whole_solution::negation;
use wide_int::Natural;

/// A row that moves, with what its entries share: its side, and the size of its coordinate at the position.
#[derive(Clone, Copy)]
pub struct Tied {
    pub row: u32,
    pub side: Side,
    pub size: u128,
}

/// An entry of a ratio.
#[derive(Clone, Copy)]
pub struct Entry {
    pub over: i128,
    pub under: u128,
}

/// Whether a side is below the fit.
fn is_down(side: Side) -> bool
    ensures { IsTrue result ↔ (side ≡ Down) }
{
    match side {
        Side::Down => true,
        _ => false,
    }
}

/// The numerator of an entry of a ratio, on its side, from a coordinate.
fn on_side(side: Side, coord: i128) -> Result<i128, Obstacle>
    ensures { IfOk result (λ n. (d : ℤ) → share n d ≡ entry_on side (share coord d)) }
{
    match side {
        Side::Down => Ok(coord),
        Side::Up => negation(coord),
        Side::Basic => negation(coord),
    }
}

/// How two entries compare.
fn entry_order(one: Entry, two: Entry) -> Ordering
    requires one { 1 ≤ one.under }
    requires two { 1 ≤ two.under }
    ensures { result ≡ cmp_ℚ (share one.over (pos one.under)) (share two.over (pos two.under)) }
{
    let left = one.over.unsigned_abs();
    let right = two.over.unsigned_abs();
    let first = Natural::product(left, two.under);
    let second = Natural::product(right, one.under);
    let sizes = first.compare(second);
    if one.over < 0 {
        if two.over < 0 {
            return sizes.reverse();
        }
        return Ordering::Less;
    }
    if two.over < 0 {
        return Ordering::Greater;
    }
    sizes
}

/// The position that holds the least row of a basis from `from` on and before `to`.
fn next_held(basis: &[u32], from: u32, to: u32) -> Option<usize>
    ensures { IsNextHeld (length basis.now) (slice_index basis.now) from to result }
{
    let mut next = None;
    let mut end = to;
    for k in 0..basis.len() {
        let row = basis[k];
        if from <= row && row < end {
            end = row;
            next = Some(k);
        }
    }
    next
}

impl<'a> Line<'a, i64, WholeInverse> {
    /// A mover with what its entries share.
    fn tied(&self, mover: Mover<u128>) -> Tied
        requires line { IsLine self.now }
        requires mover { IsMover self.now mover }
        ensures tied { IsTied self.now result }
        ensures row { result.row ≡ mover.row }
    {
        let sides = self.sides;
        Tied {
            row: mover.row,
            side: sides[mover.row as usize],
            size: mover.coord,
        }
    }

    /// The entry of a ratio at the row that a position holds.
    fn entry_at(&self, tied: Tied, position: u32) -> Result<Entry, Obstacle>
        requires line { IsLine self.now }
        requires tied { IsTied self.now tied }
        requires position { position < length self.now.basis.now.inverse.now.columns }
        ensures { IfOk result (IsEntryAt self.now tied.row position) }
    {
        let basis = self.basis;
        let rows = basis.rows;
        let chosen = &rows[tied.row as usize];
        let x = chosen.x.as_slice();
        match basis.inverse.coordinate(x, position, basis.limit) {
            Some(coord) => {
                let over = on_side(tied.side, coord)?;
                Ok(Entry {
                    over,
                    under: tied.size,
                })
            }
            None => Err(Obstacle::TooWide),
        }
    }

    /// How the entries of two ratios compare at the row that a position holds.
    fn order_at(&self, left: Tied, right: Tied, position: u32) -> Result<Ordering, Obstacle>
        requires line { IsLine self.now }
        requires left { IsTied self.now left }
        requires right { IsTied self.now right }
        requires position { position < length self.now.basis.now.inverse.now.columns }
        ensures { IfOk result (λ o. o ≡ cmp_ℚ (ratio_of self.now left.row (suc (at_of self.now position))) (ratio_of self.now right.row (suc (at_of self.now position)))) }
    {
        let one = self.entry_at(left, position)?;
        let two = self.entry_at(right, position)?;
        let order = entry_order(one, two);
        Ok(order)
    }

    /// How two ratios compare at the entries before that of row `end`, which is neither of theirs.
    fn order_before(&self, left: Tied, right: Tied, end: u32) -> Result<Ordering, Obstacle>
        requires line { IsLine self.now }
        requires left { IsTied self.now left }
        requires right { IsTied self.now right }
        requires first { ratio_of self.now left.row 0 ≡ ratio_of self.now right.row 0 }
        requires before_left { end ≤ left.row }
        requires before_right { end ≤ right.row }
        ensures { IfOk result (λ o. o ≡ lex_cmp (suc end) (ratio_of self.now left.row) (ratio_of self.now right.row)) }
    {
        let rows = self.basis.basis.rows.as_slice();
        let mut from = 0;
        'rows: while let Some(k) = next_held(rows, from, end) {
            let order = self.order_at(left, right, k as u32)?;
            if order.is_ne() {
                return Ok(order);
            }
            from = rows[k] + 1;
        }
        Ok(Ordering::Equal)
    }

    /// Whether the ratio of one row is less than that of another, where their first entries agree.
    pub(crate) fn break_tie(&self, left: Mover<u128>, right: Mover<u128>) -> Result<bool, Obstacle>
        requires line { IsLine self.now }
        requires left { IsMover self.now left }
        requires right { IsMover self.now right }
        requires differ { left.row ≢ right.row }
        requires equal { nat_cmp (left.residual * right.coord) (right.residual * left.coord) ≡ Equal }
        ensures { IfOk result (λ less. less ≡ comes_before self.now left.row right.row) }
    {
        let one = self.tied(left);
        let two = self.tied(right);
        let end = one.row.min(two.row);
        let order = self.order_before(one, two, end)?;
        if order.is_ne() {
            return Ok(order.is_lt());
        }
        if one.row < two.row {
            Ok(is_down(one.side))
        } else {
            Ok(!is_down(two.side))
        }
    }
}
