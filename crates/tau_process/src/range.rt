//! The walk over a range.
ghost use Rattle.std.specs.Prelude.{◌≡◌, ℕ, ◌≤◌, length, IfOk, IfErr, IfSome, IsSome};
ghost use Rattle.rational_laws.specs.Fraction.{rational};
ghost use Rattle.rational_laws.specs.Rational.{◌≤ℚ◌};
ghost use Rattle.loss_model.specs.Problem.{sample, IsWellShaped};
ghost use Rattle.pivot_model.specs.Duals.{HasCosts};
ghost use Rattle.tableau_model.specs.Places.{in_fractions, sample_of};
ghost use Rattle.tableau.specs.Bodies.{place_of};
ghost use Rattle.tableau.specs.Solving.{IsBegun};
ghost use Rattle.tableau.specs.Solves.{IsLimitAnswer};
ghost use Rattle.tau_process.specs.Answers.{IsAnswer};
ghost use Rattle.tau_process.specs.Processes.{IsProcess};
ghost use Rattle.tau_process.specs.Stops.{IsProcessStop, IsLimited};

use frac_core::Exact;
use loss_model::{Problem, Process, Stop};
use std::alloc::Global;
use tableau::{Progress, solve_over, stop_of, walk_range};
use whole_inverse::Obstacle;
use whole_tableau::setting_of;

/// Walks from a start, in fractions or in whole numbers. Fractions always answer; there is no answer where whole
/// numbers are too wide.
fn process_from<'a, F: Exact>(
    alloc: Global,
    begun: Progress<'a, F>,
    lo: F,
    hi: F,
    limit: u32,
) -> Option<Result<Process, Stop<F>>>
    requires ordered { rational (F.value lo) ≤ℚ rational (F.value hi) }
    requires costs_lo { HasCosts (sample_of F.value (place_of F.value begun.tableau)) (rational (F.value lo)) }
    requires costs_hi { HasCosts (sample_of F.value (place_of F.value begun.tableau)) (rational (F.value hi)) }
    requires begun { IsBegun F.value (place_of F.value begun.tableau).task begun }
    ensures answer { IfSome result (IsAnswer F.value F.range (place_of F.value begun.entry.tableau).task.problem (rational (F.value lo)) (rational (F.value hi)) limit) }
    ensures fractions { (place_of F.value begun.entry.tableau).task.body ≡ in_fractions → IsSome result }
{
    let solved = match solve_over(begun, lo, limit) {
        Ok(solved) => solved,
        Err(halt) => {
            let stop = stop_of(halt, limit)?;
            return Some(Err(stop));
        }
    };
    match walk_range(alloc, solved, lo, hi, limit) {
        Ok(walked) => Some(Ok(walked)),
        Err(halt) => {
            let stop = stop_of(halt, limit)?;
            Some(Err(stop))
        }
    }
}

/// Walks in whole numbers, from the start, where they aren't too wide and the columns are independent.
fn process_in_wholes<F: Exact>(
    alloc: Global,
    problem: &Problem<F>,
    lo: F,
    hi: F,
    limit: u32,
) -> Option<Result<Process, Stop<F>>>
    requires shaped { IsWellShaped problem.now }
    requires ordered { rational (F.value lo) ≤ℚ rational (F.value hi) }
    requires costs_lo { HasCosts (sample F.value problem.now) (rational (F.value lo)) }
    requires costs_hi { HasCosts (sample F.value problem.now) (rational (F.value hi)) }
    ensures { IfSome result (IsAnswer F.value F.range problem.now (rational (F.value lo)) (rational (F.value hi)) limit) }
{
    let setting = match setting_of(alloc, problem) {
        Ok(setting) => setting,
        Err(Obstacle::OutOfMemory) => return Some(Err(Stop::OutOfMemory)),
        Err(Obstacle::TooWide) => return None,
    };
    match Progress::begin_in_wholes(alloc, problem, &setting) {
        Ok(begun) => process_from(alloc, begun, lo, hi, limit),
        Err(Obstacle::OutOfMemory) => Some(Err(Stop::OutOfMemory)),
        Err(Obstacle::TooWide) => None,
    }
}

/// Walks in fractions, from the start.
fn process_in_fractions<F: Exact>(
    alloc: Global,
    problem: &Problem<F>,
    lo: F,
    hi: F,
    limit: u32,
) -> Result<Process, Stop<F>>
    requires shaped { IsWellShaped problem.now }
    requires ordered { rational (F.value lo) ≤ℚ rational (F.value hi) }
    requires costs_lo { HasCosts (sample F.value problem.now) (rational (F.value lo)) }
    requires costs_hi { HasCosts (sample F.value problem.now) (rational (F.value hi)) }
    ensures { IsAnswer F.value F.range problem.now (rational (F.value lo)) (rational (F.value hi)) limit result }
{
    let begun = Progress::begin(alloc, problem)?;
    match process_from(alloc, begun, lo, hi, limit) {
        Some(answer) => answer,
        None => unreachable!(),
    }
}

/// Walks from `lo` to `hi`: from the greedy start by solving steps at `lo`, and from there from
/// breakpoint to breakpoint. The limit counts all steps together. Whole numbers are tried first, and where
/// they are too wide all is done again in fractions.
///
/// `PivotLimit` comes exactly where as many steps were made as the limit says and one more is left, save
/// that an operation that overflows, or want of memory, may come first. `Dependent` comes where the columns
/// are dependent. An overflow names an operation of the start, or of the last basis of the trail that it
/// carries.
pub fn process<F: Exact>(
    alloc: Global,
    problem: &Problem<F>,
    lo: F,
    hi: F,
    limit: u32,
) -> Result<Process, Stop<F>>
    requires shaped { IsWellShaped problem.now }
    requires ordered { rational (F.value lo) ≤ℚ rational (F.value hi) }
    requires costs_lo { HasCosts (sample F.value problem.now) (rational (F.value lo)) }
    requires costs_hi { HasCosts (sample F.value problem.now) (rational (F.value hi)) }
    ensures process { IfOk result (IsProcess F.value problem.now (rational (F.value lo)) (rational (F.value hi))) }
    ensures short { IfOk result (λ q. length q.trail.steps ≤ limit) }
    ensures stopped { IfErr result (IsProcessStop F.value F.range problem.now (rational (F.value lo)) (rational (F.value hi)) limit) }
    ensures limited { IsLimited (sample F.value problem.now) (rational (F.value lo)) (rational (F.value hi)) limit → IsLimitAnswer result }
{
    match process_in_wholes(alloc, problem, lo, hi, limit) {
        Some(answer) => answer,
        None => process_in_fractions(alloc, problem, lo, hi, limit),
    }
}
