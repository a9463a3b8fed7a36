//! The laws on the stops of the solver and of rank intervals. Each function does nothing: its contract is the law.

ghost use Rattle.stop_laws.specs.IntervalStops.{IntervalStopIsNeeded};
ghost use Rattle.stop_laws.specs.NeededStops.{SolveStopIsNeeded, ProcessStopIsNeeded, LimitedSolveHasFullRank, LimitedProcessHasFullRank};

use frac_core::Exact;
use loss_model::Problem;

/// A stop of a solve, and of a process, was needed: by its limit only where that is below the bases of its
/// parts, by an operation that overflows, or by columns that are dependent.
pub fn needed_stops<F: Exact>(problem: &Problem<F>)
    ensures solve { SolveStopIsNeeded F.value F.range problem.now }
    ensures process { ProcessStopIsNeeded F.value F.range problem.now }
{}

/// Where a lawful trail reaches a limit the columns are independent.
pub fn limits_are_answered<F: Exact>(problem: &Problem<F>)
    ensures solve { LimitedSolveHasFullRank F.value problem.now }
    ensures process { LimitedProcessHasFullRank F.value problem.now }
{}

/// A stop of a rank interval was needed: by its limit only where that is below the bases of its three parts, by
/// an operation that overflows, or by columns that are dependent.
pub fn needed_interval_stops<F: Exact>(problem: &Problem<F>)
    ensures { IntervalStopIsNeeded F.value F.range problem.now }
{}
