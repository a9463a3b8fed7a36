//! The dual values of all rows at an end, in whole numbers: times a common denominator of its own, and the scale of the
//! costs.
ghost use Rattle.std.specs.Prelude.{◌≡◌, ◌+◌, ◌*◌, ◌<◌, ◌^◌, pos, unsigned_abs, IfSome, IsTrue};
ghost use Rattle.rational_laws.specs.Fraction.{rational};
ghost use Rattle.rational_laws.specs.Rational.{◌*ℚ◌, whole};
ghost use Rattle.frac_core.specs.Values.{value as value128};
ghost use Rattle.loss_model.specs.Problem.{sample};
ghost use Rattle.loss_model.specs.Vertex.{basic_value};
ghost use Rattle.cert_sums.specs.Tables.{IsSmallRow, IsTable};
ghost use Rattle.cert_sums.specs.Duals.{at_line, side_in, dual_of, IsRowDual, IsDuals};

use crate::reach::reach_of;
use crate::scale::product;
use crate::table::{Line, Table, WholeRow};
use crate::vertices::{basic_scaled, side};
use frac_core::{Frac128, List};
use loss_model::{Problem, Side, Vertex};
use ratio::Ratio;
use std::alloc::Global;
use wide_int::grown;

/// A quantile, a vertex, and the dual values of the basic rows there.
#[derive(Clone, Copy)]
pub(crate) struct End<'a> {
    pub(crate) theta: &'a Ratio,
    pub(crate) vertex: &'a Vertex,
    pub(crate) basic: &'a List<Ratio>,
}

/// What dual values are multiplied by beside the scale of the costs, and their products.
#[derive(Drop)]
pub(crate) struct Duals {
    pub(crate) scale: u128,
    pub(crate) values: List<i128>,
}

/// Whether a line of numbers up to a limit can be read at a quantile times a scale.
pub(crate) fn has_reach(limit: u64, scale: u128, at: i128) -> bool
    ensures scale { IsTrue result → scale < 2 ^ 127 }
    ensures room { IsTrue result → limit * (scale + unsigned_abs at) < 2 ^ 127 }
{
    if scale > i128::MAX as u128 {
        return false;
    }
    match scale.checked_add(at.unsigned_abs()) {
        Some(sum) => match sum.checked_mul(limit as u128) {
            Some(bound) => bound <= i128::MAX as u128,
            None => false,
        },
        None => false,
    }
}

/// What a line comes to there, times the scale.
#[inline]
pub(crate) fn line_at(line: Line, scale: u128, at: i128) -> i128
    requires scale { scale < 2 ^ 127 }
    requires room { unsigned_abs line.start * scale + unsigned_abs line.slope * unsigned_abs at < 2 ^ 127 }
    ensures { result ≡ at_line line scale at }
{
    grown(grown(0, line.start, scale as i128), line.slope, at)
}

/// The dual value of a basic row, times both scales.
pub(crate) fn basic_dual(end: End<'_>, row: usize, scale: u128, cost_scale: u128) -> Option<i128>
    ensures { IfSome result (λ e. whole e ≡ (whole (pos scale) *ℚ whole (pos cost_scale)) *ℚ basic_value end.entry.vertex.now end.entry.basic.now row) }
{
    let number = basic_scaled(end.vertex, end.basic, row, scale)?;
    let made = product(number, cost_scale)?;
    Some(made)
}

/// The dual value of a row by its side, times both scales.
#[inline]
pub(crate) fn row_dual(
    table: &Table,
    row: &WholeRow,
    i: usize,
    end: End<'_>,
    scale: u128,
    at: i128,
) -> Option<i128>
    requires scale { scale < 2 ^ 127 }
    requires room { table.now.cost_limit * (scale + unsigned_abs at) < 2 ^ 127 }
    requires small { IsSmallRow table.now.limit table.now.cost_limit row.now }
    ensures { IfSome result (IsRowDual (side_in end.entry.vertex.now i) row.now scale at ((whole (pos scale) *ℚ whole (pos table.now.cost_scale)) *ℚ basic_value end.entry.vertex.now end.entry.basic.now i)) }
{
    match side(end.vertex, i) {
        Side::Up => Some(line_at(row.up, scale, at)),
        Side::Down => Some(line_at(row.low, scale, at)),
        Side::Basic => basic_dual(end, i, scale, table.cost_scale),
    }
}

/// The dual values at an end.
pub(crate) fn duals_of(
    alloc: Global,
    problem: &Problem<Frac128>,
    table: &Table,
    end: End<'_>,
) -> Option<Duals>
    requires { IsTable problem.now table.now }
    ensures { IfSome result (IsDuals problem.now table.now (dual_of (sample value128 problem.now) (rational end.entry.theta.now) end.entry.vertex.now end.entry.basic.now)) }
{
    let reach = reach_of(table, end)?;
    let rows = table.rows.as_slice();
    let mut values = List::new(alloc);
    for i in 0..rows.len() {
        let value = row_dual(table, &rows[i], i, end, reach.scale, reach.at)?;
        if values.push(value).is_err() {
            return None;
        }
    }
    Some(Duals {
        scale: reach.scale,
        values,
    })
}
