//! What is tested of the ends of segments: that the dual values are orthogonal to the columns, that both sides of a loss
//! come to what is stated, and that two ends have the same dual values.
ghost use Rattle.std.specs.Prelude.{◌≡◌, IfSome, IsTrue};
ghost use Rattle.rational_laws.specs.Fraction.{rational};
ghost use Rattle.frac_core.specs.Values.{value as value128};
ghost use Rattle.loss_model.specs.Problem.{sample};
ghost use Rattle.cert_sums.specs.Tables.{IsTable};
ghost use Rattle.cert_sums.specs.Duals.{IsDuals};
ghost use Rattle.cert_sums.specs.Sums.{IsBalanced};
ghost use Rattle.cert_sums.specs.Ends.{low_dual, high_dual, IsLossAt, DoMeet};

use crate::duals::{Duals, End, duals_of};
use crate::residuals::follow_sides;
use crate::table::Table;
use crate::totals::{balances, comes_to};
use frac_core::Frac128;
use loss_model::{Problem, Segment};
use std::alloc::Global;

/// A problem, and the same in whole numbers.
#[derive(Clone, Copy)]
pub struct WholeProblem<'a> {
    pub problem: &'a Problem<Frac128>,
    pub table: &'a Table,
}

// The dual values at the low end of a segment.
fn low_duals(alloc: Global, whole: WholeProblem<'_>, segment: &Segment) -> Option<Duals>
    requires { IsTable whole.problem.now whole.table.now }
    ensures { IfSome result (IsDuals whole.entry.problem.now whole.entry.table.now (low_dual whole.entry.problem.now segment.now)) }
{
    let end = End {
        theta: &segment.lo,
        vertex: &segment.vertex,
        basic: &segment.basic_lo,
    };
    let made = duals_of(alloc, whole.problem, whole.table, end)?;
    Some(made)
}

// The dual values at its high end.
fn high_duals(alloc: Global, whole: WholeProblem<'_>, segment: &Segment) -> Option<Duals>
    requires { IsTable whole.problem.now whole.table.now }
    ensures { IfSome result (IsDuals whole.entry.problem.now whole.entry.table.now (high_dual whole.entry.problem.now segment.now)) }
{
    let end = End {
        theta: &segment.hi,
        vertex: &segment.vertex,
        basic: &segment.basic_hi,
    };
    let made = duals_of(alloc, whole.problem, whole.table, end)?;
    Some(made)
}

// The dual values at both ends of a segment.
#[derive(Drop)]
struct Ends {
    low: Duals,
    high: Duals,
}

fn ends_of(alloc: Global, whole: WholeProblem<'_>, segment: &Segment) -> Option<Ends>
    requires { IsTable whole.problem.now whole.table.now }
    ensures low { IfSome result (λ ends. IsDuals whole.entry.problem.now whole.entry.table.now (low_dual whole.entry.problem.now segment.now) ends.low) }
    ensures high { IfSome result (λ ends. IsDuals whole.entry.problem.now whole.entry.table.now (high_dual whole.entry.problem.now segment.now) ends.high) }
{
    let low = low_duals(alloc, whole, segment)?;
    let high = high_duals(alloc, whole, segment)?;
    Some(Ends { low, high })
}

/// Whether the dual values at both ends of a segment are orthogonal to each column.
pub fn duals_balance(alloc: Global, whole: WholeProblem<'_>, segment: &Segment) -> bool
    requires { IsTable whole.problem.now whole.table.now }
    ensures low { IsTrue result → IsBalanced (sample value128 whole.entry.problem.now) (low_dual whole.entry.problem.now segment.now) }
    ensures high { IsTrue result → IsBalanced (sample value128 whole.entry.problem.now) (high_dual whole.entry.problem.now segment.now) }
{
    match ends_of(alloc, whole, segment) {
        Some(ends) => {
            if !balances(whole.problem, whole.table, &ends.low) {
                return false;
            }
            balances(whole.problem, whole.table, &ends.high)
        }
        None => false,
    }
}

/// Whether the losses that are stated at both ends of a segment are what its dual values come to, and each residual lies
/// on the side of its row: where the dual values are orthogonal to each column, these are the losses of its coefficients.
pub fn losses_hold(alloc: Global, whole: WholeProblem<'_>, segment: &Segment) -> bool
    requires table { IsTable whole.problem.now whole.table.now }
    requires low { IsBalanced (sample value128 whole.problem.now) (low_dual whole.problem.now segment.now) }
    requires high { IsBalanced (sample value128 whole.problem.now) (high_dual whole.problem.now segment.now) }
    ensures low { IsTrue result → IsLossAt whole.entry.problem.now segment.now.vertex (rational segment.now.lo) (low_dual whole.entry.problem.now segment.now) (rational segment.now.loss_lo) }
    ensures high { IsTrue result → IsLossAt whole.entry.problem.now segment.now.vertex (rational segment.now.hi) (high_dual whole.entry.problem.now segment.now) (rational segment.now.loss_hi) }
{
    if !follow_sides(alloc, whole.problem, whole.table, &segment.vertex) {
        return false;
    }
    match ends_of(alloc, whole, segment) {
        Some(ends) => {
            if !comes_to(whole.problem, whole.table, &ends.low, &segment.loss_lo) {
                return false;
            }
            comes_to(whole.problem, whole.table, &ends.high, &segment.loss_hi)
        }
        None => false,
    }
}

// Whether both are the same numbers.
fn same_numbers(left: &[i128], right: &[i128]) -> bool
    ensures { IsTrue result → left.now ≡ right.now }
{
    left == right
}

// Whether both are the same numbers over the same scale.
fn agree(left: &Duals, right: &Duals) -> bool
    ensures scale { IsTrue result → left.now.scale ≡ right.now.scale }
    ensures values { IsTrue result → left.now.values ≡ right.now.values }
{
    if left.scale != right.scale {
        return false;
    }
    same_numbers(left.values.as_slice(), right.values.as_slice())
}

/// Whether each row has the same dual value at the high end of a segment and at the low end of the next one.
pub fn duals_meet(alloc: Global, whole: WholeProblem<'_>, segment: &Segment, next: &Segment) -> bool
    requires { IsTable whole.problem.now whole.table.now }
    ensures { IsTrue result → DoMeet whole.entry.problem.now segment.now next.now }
{
    match high_duals(alloc, whole, segment) {
        Some(left) => match low_duals(alloc, whole, next) {
            Some(right) => agree(&left, &right),
            None => false,
        },
        None => false,
    }
}
