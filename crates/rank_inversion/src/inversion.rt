//! Rank intervals.
ghost use Rattle.std.specs.Prelude.{◌≡◌, ℕ, ◌<◌, ◌≤◌, length, IfOk, IfErr, IfSome, pos};
ghost use Rattle.rational_laws.specs.Fraction.{rational};
ghost use Rattle.rational_laws.specs.Rational.{whole, ◌≤ℚ◌};
ghost use Rattle.loss_model.specs.Dual.{IsDataRow};
ghost use Rattle.loss_model.specs.Problem.{sample, IsWellShaped};
ghost use Rattle.loss_model.specs.Strict.{◌<ℚ◌};
ghost use Rattle.loss_model.specs.declared.stop.Stop.TheVariants.{PivotLimit, Overflow};
ghost use Rattle.fraction_tableau.specs.Kept.{IsKept};
ghost use Rattle.br_pivot.specs.Solutions.{IsSolution};
ghost use Rattle.rank_inversion.specs.AllIntervals.{IsAnswer};
ghost use Rattle.rank_inversion.specs.Intervals.{IsRankInterval};
ghost use Rattle.rank_inversion.specs.Stops.{IsWalkStop};
ghost use Rattle.rank_inversion.specs.Tests.{IsTested};
ghost use Rattle.rank_inversion.specs.Walks.{IsEnded, IsHalted};
ghost use Rattle.rank_inversion.specs.Wholes.{IsStarted};
ghost use Rattle.rank_inversion.specs.Inversions.{IsAskable, IsReady, course_of, trail_with, IsStopHere, IsRisen, IsRiseHalt, IsFallHalt};

use crate::column_test::{Asked, RankTest, rank_test};
use crate::course::Course;
use crate::gram::gram_inverse;
use crate::trails::{joined, with_walks};
use crate::walking::{Walk, WalkHalt, walk_to_end};
use crate::wholes::{Started, start_in_wholes};
use br_pivot::{Solved, solve_at};
use frac_core::{Exact, List, OutOfMemory};
use fraction_tableau::FractionTableau;
use loss_model::{Basis, Exchange, Interval, Problem, Spill, Stop, Trail};
use rank_steps::Way;
use rank_tableau::Arrival;
use ratio::Ratio;
use std::alloc::Global;
use whole_tableau::setting_of;

/// What both walks of a tested column go by: the problem and its solve at the quantile, what is asked, the
/// bound on the square of the statistic, and the limit of all steps.
#[derive(Drop)]
struct Inversion<'a, F: Exact> {
    problem: &'a Problem<F>,
    solved: &'a Solved<F>,
    asked: Asked<F>,
    bound: F,
    limit: u32,
}

/// The solved basis, in memory of its own.
fn solved_basis<'a, F: Exact>(
    alloc: Global,
    problem: &'a Problem<F>,
    solved: &Solved<F>,
) -> Result<FractionTableau<'a, F>, OutOfMemory>
    requires { IsKept F.value (record { problem = problem.now; rows = solved.now.basis.rows; square = solved.now.inverse }) }
    ensures { IfOk result (λ t. t ≡ record { problem = problem.now; rows = solved.now.basis.rows; square = solved.now.inverse }) }
{
    let rows = List::copy(alloc, solved.basis.rows.as_slice())?;
    let inverse = solved.inverse.copy()?;
    Ok(FractionTableau::over(alloc, problem, Basis { rows }, inverse))
}

impl<'a, F: Exact> Inversion<'a, F> {
    /// The walk on a way.
    fn course(&self, way: Way) -> Course<F>
        ensures { result ≡ course_of self.now way }
    {
        Course {
            way,
            column: self.asked.column,
            tau: self.asked.tau,
            bound: self.bound,
        }
    }

    /// Walks on a way from the solved basis, with so many steps left.
    fn walk(&self, alloc: Global, way: Way, left: u32) -> Result<Arrival, WalkHalt<F>>
        requires ready { IsReady F.value self.now }
        ensures ended { IfOk result (IsEnded F.value self.now.problem.now (course_of self.now way) self.now.solved.now.basis.rows left) }
        ensures halted { IfErr result (IsHalted F.value self.now.problem.now (course_of self.now way) self.now.solved.now.basis.rows F.range left) }
    {
        let tableau = match solved_basis(alloc, self.problem, self.solved) {
            Ok(tableau) => tableau,
            Err(_) => return Err(WalkHalt::OutOfMemory),
        };
        let from = Walk {
            tableau,
            steps: List::new(alloc),
            now: F::zero(),
        };
        let course = self.course(way);
        walk_to_end(from, &course, left)
    }

    /// The trail of the solve, with the steps of both walks.
    fn trail(
        &self,
        alloc: Global,
        rise: List<Exchange>,
        fall: List<Exchange>,
    ) -> Result<Trail, OutOfMemory>
        ensures { IfOk result (λ t. t ≡ trail_with self.now rise fall) }
    {
        with_walks(alloc, &self.solved.trail, rise, fall)
    }

    /// The stop where a walk reaches the limit, after these steps of both walks.
    fn limit_stop(&self, alloc: Global, rise: List<Exchange>, fall: List<Exchange>) -> Stop<F>
        requires { IsStopHere F.value F.range self.now (PivotLimit self.now.limit (trail_with self.now rise fall)) }
        ensures { IsStopHere F.value F.range self.now result }
    {
        match self.trail(alloc, rise, fall) {
            Ok(trail) => Stop::PivotLimit {
                limit: self.limit,
                trail,
            },
            Err(_) => Stop::OutOfMemory,
        }
    }

    /// The stop where an operation of a walk overflows, after these steps of both walks.
    fn spill_stop(
        &self,
        alloc: Global,
        rise: List<Exchange>,
        fall: List<Exchange>,
        spill: Spill<F>,
    ) -> Stop<F>
        requires { IsStopHere F.value F.range self.now (Overflow (trail_with self.now rise fall) spill) }
        ensures { IsStopHere F.value F.range self.now result }
    {
        match self.trail(alloc, rise, fall) {
            Ok(trail) => Stop::Overflow { trail, spill },
            Err(_) => Stop::OutOfMemory,
        }
    }

    /// The stop for which the rising walk halted.
    fn rise_stop(&self, alloc: Global, halt: WalkHalt<F>) -> Stop<F>
        requires ready { IsReady F.value self.now }
        requires halted { IsRiseHalt F.value F.range self.now halt }
        ensures { IsStopHere F.value F.range self.now result }
    {
        match halt {
            WalkHalt::OutOfMemory => Stop::OutOfMemory,
            WalkHalt::PivotLimit { steps } => self.limit_stop(alloc, steps, List::new(alloc)),
            WalkHalt::Overflow { steps, spill } => {
                self.spill_stop(alloc, steps, List::new(alloc), spill)
            }
        }
    }

    /// The stop for which the falling walk halted, after the rising one.
    fn fall_stop(&self, alloc: Global, rise: Arrival, halt: WalkHalt<F>) -> Stop<F>
        requires ready { IsReady F.value self.now }
        requires risen { IsRisen F.value self.now rise }
        requires halted { IsFallHalt F.value F.range self.now rise.steps halt }
        ensures { IsStopHere F.value F.range self.now result }
    {
        match halt {
            WalkHalt::OutOfMemory => Stop::OutOfMemory,
            WalkHalt::PivotLimit { steps } => self.limit_stop(alloc, rise.steps, steps),
            WalkHalt::Overflow { steps, spill } => {
                self.spill_stop(alloc, rise.steps, steps, spill)
            }
        }
    }

    /// The interval: the rising walk gives the high end, and then the falling one the low end.
    fn interval(&self, alloc: Global, factors: List<Ratio>) -> Result<Interval, Stop<F>>
        requires ready { IsReady F.value self.now }
        requires tested { IsTested F.value self.now.problem.now self.now.asked (record { factors = factors; bound = self.now.bound }) }
        ensures interval { IfOk result (IsRankInterval F.value self.now.problem.now self.now.asked.column self.now.asked.tau self.now.asked.crit self.now.limit) }
        ensures stopped { IfErr result (IsStopHere F.value F.range self.now) }
    {
        let left = self.limit - self.solved.trail.steps.as_slice().len() as u32;
        let rise = match self.walk(alloc, Way::Rise, left) {
            Ok(rise) => rise,
            Err(halt) => return Err(self.rise_stop(alloc, halt)),
        };
        let rest = left - rise.steps.as_slice().len() as u32;
        let fall = match self.walk(alloc, Way::Fall, rest) {
            Ok(fall) => fall,
            Err(halt) => return Err(self.fall_stop(alloc, rise, halt)),
        };
        match joined(alloc, &self.solved.trail, self.asked, factors, rise, fall) {
            Ok(interval) => Ok(interval),
            Err(_) => Err(Stop::OutOfMemory),
        }
    }
}

/// The rank interval of a tested column, from the solve at its quantile: the rising walk gives the high end, and
/// then the falling one the low end. The limit counts the steps of the solve and of both walks together.
///
/// `PivotLimit` comes where as many steps were made and one more is left, and an overflow names an operation at
/// the last basis of the walk that stands in the trail.
pub fn interval_from<F: Exact>(
    alloc: Global,
    problem: &Problem<F>,
    solved: &Solved<F>,
    asked: Asked<F>,
    test: RankTest<F>,
    limit: u32,
) -> Result<Interval, Stop<F>>
    requires asked { IsAskable F.value problem.now asked }
    requires solved { IsSolution F.value problem.now (rational (F.value asked.tau)) solved.now }
    requires short { length solved.now.trail.steps ≤ limit }
    requires tested { IsTested F.value problem.now asked test }
    ensures interval { IfOk result (IsRankInterval F.value problem.now asked.column asked.tau asked.crit limit) }
    ensures stopped { IfErr result (IsWalkStop F.value F.range problem.now asked.column (rational (F.value asked.tau)) (rational (F.value asked.crit)) limit) }
{
    let inversion = Inversion {
        problem,
        solved,
        asked,
        bound: test.bound,
        limit,
    };
    match inversion.interval(alloc, test.factors) {
        Ok(interval) => Ok(interval),
        Err(stop) => Err(stop),
    }
}

/// The interval by its parts: the inverse of the Gram matrix, the test of the column, the solve, and the walks.
fn by_parts<F: Exact>(
    alloc: Global,
    problem: &Problem<F>,
    asked: Asked<F>,
    limit: u32,
) -> Result<Interval, Stop<F>>
    requires asked { IsAskable F.value problem.now asked }
    ensures { IsAnswer F.value F.range problem.now limit asked result }
{
    let gram = match gram_inverse(alloc, problem) {
        Ok(gram) => gram,
        Err(stop) => return Err(stop),
    };
    let test = match rank_test(alloc, problem, &gram, asked) {
        Ok(test) => test,
        Err(stop) => {
            drop(gram);
            return Err(stop);
        }
    };
    drop(gram);
    let solved = match solve_at(alloc, problem, asked.tau, limit) {
        Ok(solved) => solved,
        Err(stop) => {
            drop(test);
            return Err(stop);
        }
    };
    match interval_from(alloc, problem, &solved, asked, test, limit) {
        Ok(interval) => {
            drop(solved);
            Ok(interval)
        }
        Err(stop) => {
            drop(solved);
            Err(stop)
        }
    }
}

/// The rank interval of a column by its parts alone, whose walks go in fractions: what `interval` comes to where whole
/// numbers don't suffice.
pub fn interval_by_parts<F: Exact>(
    alloc: Global,
    problem: &Problem<F>,
    asked: Asked<F>,
    limit: u32,
) -> Result<Interval, Stop<F>>
    requires shaped { IsWellShaped problem.now }
    requires column { asked.column < problem.now.columns }
    requires tau_above { whole (pos 0) <ℚ rational (F.value asked.tau) }
    requires tau_below { rational (F.value asked.tau) <ℚ whole (pos 1) }
    requires crit { whole (pos 0) ≤ℚ rational (F.value asked.crit) }
    requires data { (i : ℕ) → i < length problem.now.rows → IsDataRow (sample F.value problem.now) i }
    ensures { IsAnswer F.value F.range problem.now limit asked result }
{
    by_parts(alloc, problem, asked, limit)
}

/// The interval in whole numbers, or else by its parts.
fn or_by_parts<F: Exact>(
    alloc: Global,
    problem: &Problem<F>,
    quick: Option<Interval>,
    asked: Asked<F>,
    limit: u32,
) -> Result<Interval, Stop<F>>
    requires asked { IsAskable F.value problem.now asked }
    requires quick { IfSome quick (IsRankInterval F.value problem.now asked.column asked.tau asked.crit limit) }
    ensures { IsAnswer F.value F.range problem.now limit asked result }
{
    if let Some(interval) = quick {
        return Ok(interval);
    }
    by_parts(alloc, problem, asked, limit)
}

/// The interval of a column from the solve at its quantile, where that is in whole numbers.
fn interval_by<F: Exact>(
    alloc: Global,
    problem: &Problem<F>,
    started: &Option<Started<'_, F>>,
    asked: Asked<F>,
    limit: u32,
) -> Option<Interval>
    requires asked { IsAskable F.value problem.now asked }
    requires started { IfSome started.now (IsStarted F.value problem.now (rational (F.value asked.tau)) limit) }
    ensures { IfSome result (IsRankInterval F.value problem.now asked.column asked.tau asked.crit limit) }
{
    let _problem = problem;
    match started {
        Some(started) => {
            let interval = started.interval(alloc, asked, limit)?;
            Some(interval)
        }
        None => None,
    }
}

/// The rank interval of a column, where the solve at its quantile may have been made in whole numbers before: what
/// `interval` answers, without that solve. Where whole numbers don't suffice, all is done in fractions.
pub fn interval_after<F: Exact>(
    alloc: Global,
    problem: &Problem<F>,
    started: &Option<Started<'_, F>>,
    asked: Asked<F>,
    limit: u32,
) -> Result<Interval, Stop<F>>
    requires asked { IsAskable F.value problem.now asked }
    requires started { IfSome started.now (IsStarted F.value problem.now (rational (F.value asked.tau)) limit) }
    ensures { IsAnswer F.value F.range problem.now limit asked result }
{
    let quick = interval_by(alloc, problem, started, asked, limit);
    or_by_parts(alloc, problem, quick, asked, limit)
}

/// The rank interval of a column in whole numbers alone. There is none where they don't suffice, where a limit is
/// reached, where the columns are dependent, and where memory is wanting: `interval` tells which.
pub fn interval_in_wholes<F: Exact>(
    alloc: Global,
    problem: &Problem<F>,
    asked: Asked<F>,
    limit: u32,
) -> Option<Interval>
    requires shaped { IsWellShaped problem.now }
    requires column { asked.column < problem.now.columns }
    requires tau_above { whole (pos 0) <ℚ rational (F.value asked.tau) }
    requires tau_below { rational (F.value asked.tau) <ℚ whole (pos 1) }
    requires crit { whole (pos 0) ≤ℚ rational (F.value asked.crit) }
    requires data { (i : ℕ) → i < length problem.now.rows → IsDataRow (sample F.value problem.now) i }
    ensures { IfSome result (IsRankInterval F.value problem.now asked.column asked.tau asked.crit limit) }
{
    let setting = match setting_of(alloc, problem) {
        Ok(setting) => setting,
        Err(_) => return None,
    };
    let started = start_in_wholes(alloc, problem, &setting, asked.tau, limit);
    let interval = interval_by(alloc, problem, &started, asked, limit);
    drop(started);
    drop(setting);
    interval
}

/// The rank interval of a column at the quantile tau for a critical value: the tested values for which some
/// optimal dual values of the fit without the column are within it (Koenker 2005, section 3.5). `limit` counts
/// the steps of the solve, of the rising walk and of the falling one together.
///
/// `PivotLimit` comes exactly where as many steps were made as the limit says and one more is left, save that
/// an operation that overflows, or want of memory, may come first. `Dependent` comes where the columns are
/// dependent. An overflow names an operation before the solve, with the trail that stands by then, or one at
/// the last basis of the trail that it carries.
pub fn interval<F: Exact>(
    alloc: Global,
    problem: &Problem<F>,
    column: u32,
    tau: F,
    crit: F,
    limit: u32,
) -> Result<Interval, Stop<F>>
    requires shaped { IsWellShaped problem.now }
    requires column { column < problem.now.columns }
    requires tau_above { whole (pos 0) <ℚ rational (F.value tau) }
    requires tau_below { rational (F.value tau) <ℚ whole (pos 1) }
    requires crit { whole (pos 0) ≤ℚ rational (F.value crit) }
    requires data { (i : ℕ) → i < length problem.now.rows → IsDataRow (sample F.value problem.now) i }
    ensures { IsAnswer F.value F.range problem.now limit (record { column = column; tau = tau; crit = crit }) result }
{
    let asked = Asked { column, tau, crit };
    let quick = interval_in_wholes(alloc, problem, asked, limit);
    or_by_parts(alloc, problem, quick, asked, limit)
}
