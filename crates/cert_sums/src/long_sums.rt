//! The sums of a tally at an end of a segment, and the dual values of single rows, in whole numbers of any size.
ghost use Rattle.std.specs.Prelude.{◌≡◌, ◌≤◌, ◌<◌, ◌+◌, ◌*◌, ℕ, pos, All, IfSome, IsTrue, length, get_or};
ghost use Rattle.rational_laws.specs.Fraction.{rational};
ghost use Rattle.rational_laws.specs.Rational.{◌+ℚ◌, ◌*ℚ◌, whole};
ghost use Rattle.rational_laws.specs.WholeLists.{whole_at};
ghost use Rattle.loss_model.specs.Problem.{number_at};
ghost use Rattle.loss_model.specs.Vertex.{basic_value};
ghost use Rattle.cert_sums.specs.Sums.{cell_at};
ghost use Rattle.cert_sums.specs.Tables.{IsTable};
ghost use Rattle.cert_sums.specs.Duals.{side_in, IsRowDual};
ghost use Rattle.cert_sums.specs.Slopes.{basic_at, end_dual, listed_total, over_scales, sum_at, IsScaled, IsTally, IsSummed};

use crate::duals::End;
use crate::long::{long_grown, long_line, long_product, long_scale, long_scaled, short_product};
use crate::slopes::{Tally, cell, number_at};
use crate::table::{Table, WholeRow};
use crate::vertices::{basis_place, side};
use frac_core::{Frac128, List};
use loss_model::{Problem, Side};
use natural::Natural;
use ratio::{Integer, Ratio};
use std::alloc::Global;

/// A common denominator of a quantile and of the basic dual values there, and the quantile times that.
#[derive(Drop)]
pub(crate) struct LongReach {
    pub(crate) scale: Natural,
    pub(crate) at: Integer,
}

/// That of an end.
pub(crate) fn long_reach(alloc: Global, end: End<'_>) -> Option<LongReach>
    ensures { IfSome result (λ r. IsScaled (rational end.entry.theta.now) (record { scale = r.scale; at = r.at })) }
{
    let scale = long_scale(alloc, end.theta.denominator(), end.basic.as_slice())?;
    let at = long_scaled(alloc, end.theta, &scale);
    match at {
        Some(at) => Some(LongReach { scale, at }),
        None => {
            drop(scale);
            None
        }
    }
}

// The item at a place, times a scale.
fn long_item(alloc: Global, list: &[Ratio], place: usize, scale: &Natural) -> Option<Integer>
    ensures { IfSome result (λ m. whole m ≡ whole (pos scale.now) *ℚ number_at list.now place) }
{
    match list.get(place) {
        Some(x) => long_scaled(alloc, x, scale),
        None => None,
    }
}

/// The dual value of a basic row, times both scales.
pub(crate) fn long_basic(
    alloc: Global,
    end: End<'_>,
    row: usize,
    scale: &Natural,
    cost_scale: u128,
) -> Option<Integer>
    ensures { IfSome result (λ e. whole e ≡ (whole (pos scale.now) *ℚ whole (pos cost_scale)) *ℚ basic_value end.entry.vertex.now end.entry.basic.now row) }
{
    let place = basis_place(end.vertex.basis.rows.as_slice(), row);
    let number = long_item(alloc, end.basic.as_slice(), place, scale)?;
    let times = Natural::short(alloc, cost_scale);
    let made = long_product(alloc, &number, &times);
    drop(number);
    drop(times);
    let made = made?;
    Some(made)
}

// Those of the rows of a list, or 0 for one outside the basis.
fn long_values(
    alloc: Global,
    list: &[usize],
    end: End<'_>,
    scale: &Natural,
    cost_scale: u128,
) -> Option<List<Integer>>
    ensures { IfSome result (λ made. (j : ℕ) → j < length list.now → whole_at made j ≡ basic_at scale.now cost_scale end.entry.vertex.now end.entry.basic.now (get_or list.now j 0)) }
{
    let mut made = List::new(alloc);
    for j in 0..list.len() {
        let value = long_basic_at(alloc, end, list[j], scale, cost_scale)?;
        if made.push(value).is_err() {
            return None;
        }
    }
    Some(made)
}

fn long_basic_at(
    alloc: Global,
    end: End<'_>,
    row: usize,
    scale: &Natural,
    cost_scale: u128,
) -> Option<Integer>
    ensures { IfSome result (λ e. whole e ≡ basic_at scale.now cost_scale end.entry.vertex.now end.entry.basic.now row) }
{
    match side(end.vertex, row) {
        Side::Up => Some(Integer::zero(alloc)),
        Side::Down => Some(Integer::zero(alloc)),
        Side::Basic => long_basic(alloc, end, row, scale, cost_scale),
    }
}

/// The rows, their tally, and what it is read with at an end: the quantile, and the dual values of the basic rows, each for
/// the unsettled row at its place.
#[derive(Clone, Copy)]
struct LongView<'a> {
    rows: &'a [WholeRow],
    tally: &'a Tally,
    values: &'a [Integer],
    reach: &'a LongReach,
}

// A sum with the product of a row's cell and its value more.
fn long_with_row(
    alloc: Global,
    rows: &[WholeRow],
    row: usize,
    place: usize,
    value: &Integer,
    sum: &Integer,
) -> Option<Integer>
    ensures { IfSome result (λ r. whole r ≡ whole sum.now +ℚ (cell_at rows.now place row *ℚ whole value.now)) }
{
    let x = cell(rows, row, place)?;
    let made = long_grown(alloc, sum, x, value)?;
    Some(made)
}

// The sum of the lines over all rows at a place.
fn long_lines(alloc: Global, view: LongView<'_>, place: usize) -> Option<Integer>
    ensures { IfSome result (λ r. whole r ≡ (whole (pos view.entry.reach.now.scale) *ℚ whole_at view.entry.tally.now.starts place) +ℚ (whole view.entry.reach.now.at *ℚ whole_at view.entry.tally.now.slopes place)) }
{
    let start = number_at(view.tally.starts.as_slice(), place);
    let slope = number_at(view.tally.slopes.as_slice(), place);
    let first = short_product(alloc, start, &view.reach.scale)?;
    let made = long_grown(alloc, &first, slope, &view.reach.at);
    drop(first);
    let made = made?;
    Some(made)
}

// The sum over all rows of the cells at a place times the dual values, times both scales.
fn long_sum_at(alloc: Global, view: LongView<'_>, place: usize) -> Option<Integer>
    ensures { IfSome result (λ r. whole r ≡ sum_at view.entry.rows.now view.entry.tally.now view.entry.values.now (record { scale = view.entry.reach.now.scale; at = view.entry.reach.now.at }) place) }
{
    let list = view.tally.unsettled.as_slice();
    if view.values.len() != list.len() {
        return None;
    }
    let mut sum = long_lines(alloc, view, place)?;
    for j in 0..list.len() {
        sum = long_with_row(alloc, view.rows, list[j], place, &view.values[j], &sum)?;
    }
    Some(sum)
}

// Whether the sums of all columns are 0.
fn long_vanish(alloc: Global, view: LongView<'_>, columns: u32) -> bool
    ensures { IsTrue result → (k : ℕ) → k < columns → sum_at view.entry.rows.now view.entry.tally.now view.entry.values.now (record { scale = view.entry.reach.now.scale; at = view.entry.reach.now.at }) k ≡ whole (pos 0) }
{
    for k in 0..columns {
        match long_sum_at(alloc, view, k as usize) {
            Some(sum) => {
                if !sum.size().is_zero() {
                    return false;
                }
            }
            None => return false,
        }
    }
    true
}

// What a sum is over, once its dual values stand times both scales.
fn long_denominator(alloc: Global, table: &Table, scale: &Natural) -> Option<Natural>
    ensures { IfSome result (λ d. d ≡ scale.now * table.now.cost_scale * table.now.scale) }
{
    let costs = Natural::short(alloc, table.cost_scale);
    let cells = Natural::short(alloc, table.scale);
    let Ok(both) = scale.mul(alloc, &costs) else {
        return None;
    };
    match both.mul(alloc, &cells) {
        Ok(all) => Some(all),
        Err(_) => None,
    }
}

// Whether a sum over that is a number, by the cross products.
fn long_comes_to(
    alloc: Global,
    table: &Table,
    scale: &Natural,
    total: &Integer,
    stated: &Ratio,
) -> bool
    requires some { 1 ≤ scale.now }
    requires costs { 1 ≤ table.now.cost_scale }
    requires cells { 1 ≤ table.now.scale }
    ensures { IsTrue result → rational stated.now ≡ over_scales table.now scale.now (whole total.now) }
{
    let Some(den) = long_denominator(alloc, table, scale) else {
        return false;
    };
    let Some(left) = long_product(alloc, stated.numerator(), &den) else {
        return false;
    };
    let Some(right) = long_product(alloc, total, stated.denominator()) else {
        return false;
    };
    left.compare(&right).is_eq()
}

// Whether the dual values at an end are orthogonal to the columns, and come to what is stated.
fn long_summed_at(
    alloc: Global,
    problem: &Problem<Frac128>,
    table: &Table,
    tally: &Tally,
    end: End<'_>,
    reach: &LongReach,
    stated: &Ratio,
) -> bool
    requires table { IsTable problem.now table.now }
    requires tally { IsTally table.now.rows (problem.now.columns + 1) end.vertex.now.sides tally.now }
    requires reach { IsScaled (rational end.theta.now) (record { scale = reach.now.scale; at = reach.now.at }) }
    ensures { IsTrue result → IsSummed problem.now (end_dual problem.now end.entry.theta.now end.entry.vertex.now end.entry.basic.now) (rational stated.now) }
{
    let list = tally.unsettled.as_slice();
    let Some(made) = long_values(alloc, list, end, &reach.scale, table.cost_scale) else {
        return false;
    };
    let view = LongView {
        rows: table.rows.as_slice(),
        tally,
        values: made.as_slice(),
        reach,
    };
    if !long_vanish(alloc, view, problem.columns) {
        return false;
    }
    let Some(total) = long_sum_at(alloc, view, problem.columns as usize) else {
        return false;
    };
    long_comes_to(alloc, table, &reach.scale, &total, stated)
}

/// The same, with what the numbers of the end are multiplied by.
pub(crate) fn long_summed(
    alloc: Global,
    problem: &Problem<Frac128>,
    table: &Table,
    tally: &Tally,
    end: End<'_>,
    stated: &Ratio,
) -> bool
    requires table { IsTable problem.now table.now }
    requires tally { IsTally table.now.rows (problem.now.columns + 1) end.vertex.now.sides tally.now }
    ensures { IsTrue result → IsSummed problem.now (end_dual problem.now end.entry.theta.now end.entry.vertex.now end.entry.basic.now) (rational stated.now) }
{
    match long_reach(alloc, end) {
        Some(reach) => long_summed_at(alloc, problem, table, tally, end, &reach, stated),
        None => false,
    }
}

// ---- rows at two ends

// The dual value of a row by its side, times both scales.
fn long_row_dual(
    alloc: Global,
    table: &Table,
    row: &WholeRow,
    i: usize,
    end: End<'_>,
    reach: &LongReach,
) -> Option<Integer>
    ensures { IfSome result (IsRowDual (side_in end.entry.vertex.now i) row.now reach.now.scale reach.now.at ((whole (pos reach.now.scale) *ℚ whole (pos table.now.cost_scale)) *ℚ basic_value end.entry.vertex.now end.entry.basic.now i)) }
{
    match side(end.vertex, i) {
        Side::Up => long_line(alloc, row.up, &reach.scale, &reach.at),
        Side::Down => long_line(alloc, row.low, &reach.scale, &reach.at),
        Side::Basic => long_basic(alloc, end, i, &reach.scale, table.cost_scale),
    }
}

// The dual value of a row at an end, times both scales.
fn long_dual_at(
    alloc: Global,
    problem: &Problem<Frac128>,
    table: &Table,
    row: usize,
    end: End<'_>,
    reach: &LongReach,
) -> Option<Integer>
    requires table { IsTable problem.now table.now }
    requires reach { IsScaled (rational end.theta.now) (record { scale = reach.now.scale; at = reach.now.at }) }
    ensures { IfSome result (λ e. whole e ≡ (whole (pos reach.now.scale) *ℚ whole (pos table.now.cost_scale)) *ℚ end_dual problem.now end.entry.theta.now end.entry.vertex.now end.entry.basic.now row) }
{
    let rows = table.rows.as_slice();
    if row >= rows.len() {
        return None;
    }
    let value = long_row_dual(alloc, table, &rows[row], row, end, reach)?;
    Some(value)
}

// Whether a row has the same dual value at two ends of one quantile.
fn long_shares(
    alloc: Global,
    problem: &Problem<Frac128>,
    table: &Table,
    row: usize,
    left: End<'_>,
    right: End<'_>,
    reach: &LongReach,
) -> bool
    requires table { IsTable problem.now table.now }
    requires left { IsScaled (rational left.theta.now) (record { scale = reach.now.scale; at = reach.now.at }) }
    requires right { IsScaled (rational right.theta.now) (record { scale = reach.now.scale; at = reach.now.at }) }
    ensures { IsTrue result → end_dual problem.now left.entry.theta.now left.entry.vertex.now left.entry.basic.now row ≡ end_dual problem.now right.entry.theta.now right.entry.vertex.now right.entry.basic.now row }
{
    let Some(before) = long_dual_at(alloc, problem, table, row, left, reach) else {
        return false;
    };
    let Some(after) = long_dual_at(alloc, problem, table, row, right, reach) else {
        return false;
    };
    before.compare(&after).is_eq()
}

// Whether all rows of a list do.
fn long_all_share(
    alloc: Global,
    problem: &Problem<Frac128>,
    table: &Table,
    list: &[usize],
    left: End<'_>,
    right: End<'_>,
    reach: &LongReach,
) -> bool
    requires table { IsTable problem.now table.now }
    requires left { IsScaled (rational left.theta.now) (record { scale = reach.now.scale; at = reach.now.at }) }
    requires right { IsScaled (rational right.theta.now) (record { scale = reach.now.scale; at = reach.now.at }) }
    ensures { IsTrue result → All (λ i. end_dual problem.now left.entry.theta.now left.entry.vertex.now left.entry.basic.now i ≡ end_dual problem.now right.entry.theta.now right.entry.vertex.now right.entry.basic.now i) list.now }
{
    for j in 0..list.len() {
        if !long_shares(alloc, problem, table, list[j], left, right, reach) {
            return false;
        }
    }
    true
}

/// Whether all rows of a list have the same dual value at two ends of one quantile.
pub(crate) fn long_meet(
    alloc: Global,
    problem: &Problem<Frac128>,
    table: &Table,
    list: &[usize],
    left: End<'_>,
    right: End<'_>,
) -> bool
    requires table { IsTable problem.now table.now }
    requires same { rational left.theta.now ≡ rational right.theta.now }
    ensures { IsTrue result → All (λ i. end_dual problem.now left.entry.theta.now left.entry.vertex.now left.entry.basic.now i ≡ end_dual problem.now right.entry.theta.now right.entry.vertex.now right.entry.basic.now i) list.now }
{
    match long_reach(alloc, left) {
        Some(reach) => long_all_share(alloc, problem, table, list, left, right, &reach),
        None => false,
    }
}
