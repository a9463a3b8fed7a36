//! What the sums of a tally come to at an end of a segment, and rows that have the same dual value at two ends.
ghost use Rattle.std.specs.Prelude.{◌≡◌, ◌<◌, ◌+◌, ℕ, pos, All, IfSome, IsTrue, length, get_or};
ghost use Rattle.rational_laws.specs.Fraction.{rational};
ghost use Rattle.rational_laws.specs.Rational.{◌*ℚ◌, whole};
ghost use Rattle.frac_core.specs.Values.{value as value128};
ghost use Rattle.rational_laws.specs.WholeLists.{whole_at};
ghost use Rattle.cert_sums.specs.Tables.{IsTable};
ghost use Rattle.cert_sums.specs.Slopes.{basic_at, end_dual, over_scales, sum_at, IsTally, IsReach, IsSummed};

use crate::duals::{End, basic_dual, row_dual};
use crate::reach::{Reach, reach_of};
use crate::scale::{is_number, product};
use crate::slopes::{Tally, number_at, with_rows};
use crate::table::{Table, WholeRow};
use crate::totals::over_scales;
use crate::vertices::side;
use frac_core::{Exact, Frac128, List};
use loss_model::{Problem, Side};
use ratio::Ratio;
use std::alloc::Global;

/// The rows, their tally, and what it is read with at an end: the quantile, and the dual values of the basic rows, each for
/// the unsettled row at its place.
#[derive(Clone, Copy)]
struct View<'a> {
    rows: &'a [WholeRow],
    tally: &'a Tally,
    values: &'a [i128],
    reach: &'a Reach,
}

// The dual value of a basic row times both scales, or 0 for a row outside the basis.
fn basic_at(end: End<'_>, row: usize, scale: u128, cost_scale: u128) -> Option<i128>
    ensures { IfSome result (λ e. whole e ≡ basic_at scale cost_scale end.entry.vertex.now end.entry.basic.now row) }
{
    match side(end.vertex, row) {
        Side::Up => Some(0),
        Side::Down => Some(0),
        Side::Basic => basic_dual(end, row, scale, cost_scale),
    }
}

// Those of the rows of a list.
fn basic_values(
    alloc: Global,
    list: &[usize],
    end: End<'_>,
    scale: u128,
    cost_scale: u128,
) -> Option<List<i128>>
    ensures { IfSome result (λ made. (j : ℕ) → j < length list.now → whole_at made j ≡ basic_at scale cost_scale end.entry.vertex.now end.entry.basic.now (get_or list.now j 0)) }
{
    let mut made = List::new(alloc);
    for j in 0..list.len() {
        let value = basic_at(end, list[j], scale, cost_scale)?;
        if made.push(value).is_err() {
            return None;
        }
    }
    Some(made)
}

// The sum over all rows of the cells at a place times the dual values, times both scales.
fn sum_at(view: View<'_>, place: usize) -> Option<i128>
    ensures { IfSome result (λ r. whole r ≡ sum_at view.entry.rows.now view.entry.tally.now view.entry.values.now view.entry.reach.now place) }
{
    let tally = view.tally;
    let first = product(number_at(tally.starts.as_slice(), place), view.reach.scale)?;
    let second = number_at(tally.slopes.as_slice(), place).checked_mul(view.reach.at)?;
    let lines = first.checked_add(second)?;
    let made = with_rows(
        view.rows,
        tally.unsettled.as_slice(),
        view.values,
        place,
        lines,
    )?;
    Some(made)
}

// Whether such a sum is 0.
fn vanishes(view: View<'_>, place: usize) -> bool
    ensures { IsTrue result → sum_at view.entry.rows.now view.entry.tally.now view.entry.values.now view.entry.reach.now place ≡ whole (pos 0) }
{
    match sum_at(view, place) {
        Some(sum) => sum == 0,
        None => false,
    }
}

// Whether the sums of all columns are.
fn all_vanish(view: View<'_>, columns: u32) -> bool
    ensures { IsTrue result → (k : ℕ) → k < columns → sum_at view.entry.rows.now view.entry.tally.now view.entry.values.now view.entry.reach.now k ≡ whole (pos 0) }
{
    for k in 0..columns {
        if !vanishes(view, k as usize) {
            return false;
        }
    }
    true
}

// The sum of the responses, over what it is multiplied by.
fn objective(view: View<'_>, table: &Table, columns: u32) -> Option<Frac128>
    ensures { IfSome result (λ r. rational (value128 r) ≡ over_scales table.now view.entry.reach.now.scale (sum_at view.entry.rows.now view.entry.tally.now view.entry.values.now view.entry.reach.now columns)) }
{
    let total = sum_at(view, columns as usize)?;
    let found = over_scales(total, view.reach.scale, table)?;
    Some(found)
}

// Whether that is a number.
fn comes_to(view: View<'_>, table: &Table, columns: u32, stated: &Ratio) -> bool
    ensures { IsTrue result → rational stated.now ≡ over_scales table.now view.entry.reach.now.scale (sum_at view.entry.rows.now view.entry.tally.now view.entry.values.now view.entry.reach.now columns) }
{
    match objective(view, table, columns) {
        Some(found) => is_number(stated, found),
        None => false,
    }
}

/// Whether the dual values at an end are orthogonal to the columns, and come to what is stated.
pub(crate) fn is_summed(
    alloc: Global,
    problem: &Problem<Frac128>,
    table: &Table,
    tally: &Tally,
    end: End<'_>,
    reach: &Reach,
    stated: &Ratio,
) -> bool
    requires table { IsTable problem.now table.now }
    requires tally { IsTally table.now.rows (problem.now.columns + 1) end.vertex.now.sides tally.now }
    requires reach { IsReach table.now.cost_limit (rational end.theta.now) reach.now }
    ensures { IsTrue result → IsSummed problem.now (end_dual problem.now end.entry.theta.now end.entry.vertex.now end.entry.basic.now) (rational stated.now) }
{
    let list = tally.unsettled.as_slice();
    match basic_values(alloc, list, end, reach.scale, table.cost_scale) {
        Some(made) => {
            let view = View {
                rows: table.rows.as_slice(),
                tally,
                values: made.as_slice(),
                reach,
            };
            if !all_vanish(view, problem.columns) {
                return false;
            }
            comes_to(view, table, problem.columns, stated)
        }
        None => false,
    }
}

// ---- rows at two ends

// The dual value of a row at an end, times both scales.
fn dual_at(
    problem: &Problem<Frac128>,
    table: &Table,
    row: usize,
    end: End<'_>,
    reach: &Reach,
) -> Option<i128>
    requires table { IsTable problem.now table.now }
    requires reach { IsReach table.now.cost_limit (rational end.theta.now) reach.now }
    ensures { IfSome result (λ e. whole e ≡ (whole (pos reach.now.scale) *ℚ whole (pos table.now.cost_scale)) *ℚ end_dual problem.now end.entry.theta.now end.entry.vertex.now end.entry.basic.now row) }
{
    let rows = table.rows.as_slice();
    if row >= rows.len() {
        return None;
    }
    let value = row_dual(table, &rows[row], row, end, reach.scale, reach.at)?;
    Some(value)
}

// Whether a row has the same dual value at two ends of one quantile.
fn shares(
    problem: &Problem<Frac128>,
    table: &Table,
    row: usize,
    left: End<'_>,
    right: End<'_>,
    reach: &Reach,
) -> bool
    requires table { IsTable problem.now table.now }
    requires left { IsReach table.now.cost_limit (rational left.theta.now) reach.now }
    requires right { IsReach table.now.cost_limit (rational right.theta.now) reach.now }
    ensures { IsTrue result → end_dual problem.now left.entry.theta.now left.entry.vertex.now left.entry.basic.now row ≡ end_dual problem.now right.entry.theta.now right.entry.vertex.now right.entry.basic.now row }
{
    match dual_at(problem, table, row, left, reach) {
        Some(before) => match dual_at(problem, table, row, right, reach) {
            Some(after) => {
                if before != after {
                    return false;
                }
                true
            }
            None => false,
        },
        None => false,
    }
}

// Whether all rows of a list do.
fn all_share(
    problem: &Problem<Frac128>,
    table: &Table,
    list: &[usize],
    left: End<'_>,
    right: End<'_>,
    reach: &Reach,
) -> bool
    requires table { IsTable problem.now table.now }
    requires left { IsReach table.now.cost_limit (rational left.theta.now) reach.now }
    requires right { IsReach table.now.cost_limit (rational right.theta.now) reach.now }
    ensures { IsTrue result → All (λ i. end_dual problem.now left.entry.theta.now left.entry.vertex.now left.entry.basic.now i ≡ end_dual problem.now right.entry.theta.now right.entry.vertex.now right.entry.basic.now i) list.now }
{
    for j in 0..list.len() {
        if !shares(problem, table, list[j], left, right, reach) {
            return false;
        }
    }
    true
}

/// Whether all rows of a list have the same dual value at two ends of one quantile.
pub(crate) fn narrow_meet(
    problem: &Problem<Frac128>,
    table: &Table,
    list: &[usize],
    left: End<'_>,
    right: End<'_>,
) -> bool
    requires table { IsTable problem.now table.now }
    requires same { rational left.theta.now ≡ rational right.theta.now }
    ensures { IsTrue result → All (λ i. end_dual problem.now left.entry.theta.now left.entry.vertex.now left.entry.basic.now i ≡ end_dual problem.now right.entry.theta.now right.entry.vertex.now right.entry.basic.now i) list.now }
{
    match reach_of(table, left) {
        Some(reach) => all_share(problem, table, list, left, right, &reach),
        None => false,
    }
}
