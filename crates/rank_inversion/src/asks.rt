//! What is asked of a problem, and the work for one quantile and for one column.
ghost use Rattle.std.specs.Prelude.{◌≡◌, IfSome};
ghost use Rattle.rational_laws.specs.Fraction.{rational};
ghost use Rattle.loss_model.specs.Problem.{IsWellShaped};
ghost use Rattle.whole_tableau.specs.Kept.{IsSetting};
ghost use Rattle.rank_inversion.specs.Wholes.{IsStarted};
ghost use Rattle.rank_inversion.specs.Answers.{first_asked, IsIntervalAnswer, IsStartedAt};
ghost use Rattle.rank_inversion.specs.RankProblems.{IsSolvable, IsWalkable};

use crate::column_test::Asked;
use crate::inversion::interval_after;
use crate::wholes::{Started, start_in_wholes};
use frac_core::Exact;
use loss_model::{Interval, Problem, Stop};
use std::alloc::Global;
use whole_tableau::{Setting, setting_of};

/// What is asked of a problem: intervals for a critical value, at these quantiles, and the limit of the pivots of each.
#[derive(Clone, Copy)]
pub struct RankAsks<'a, F> {
    pub crit: F,
    pub taus: &'a [F],
    pub limit: u32,
}

/// An interval that is asked for, and what it stopped for.
#[derive(Drop)]
pub struct IntervalStop<F> {
    pub asked: Asked<F>,
    pub stop: Stop<F>,
}

/// What the intervals of all columns share: the problem, the same in whole numbers where it has them, the critical
/// value, and the limit of each.
#[derive(Drop)]
pub(crate) struct RankProblem<'a, F: Exact> {
    pub problem: &'a Problem<F>,
    pub setting: &'a Option<Setting>,
    pub crit: F,
    pub limit: u32,
}

/// A quantile with the solve at it, where that is in whole numbers.
#[derive(Drop)]
pub(crate) struct StartedAt<'a, F: Exact> {
    pub tau: F,
    pub started: Option<Started<'a, F>>,
}

/// The problem in whole numbers, where it has them.
pub(crate) fn whole_setting<F: Exact>(alloc: Global, problem: &Problem<F>) -> Option<Setting>
    requires { IsWellShaped problem.now }
    ensures { IfSome result (IsSetting F.value problem.now) }
{
    match setting_of(alloc, problem) {
        Ok(setting) => Some(setting),
        Err(_) => None,
    }
}

impl<'a, F: Exact> RankProblem<'a, F> {
    /// The same once more, for a job of its own.
    pub(crate) fn again(&self) -> RankProblem<'a, F>
        ensures { result ≡ self.now }
    {
        RankProblem {
            problem: self.problem,
            setting: self.setting,
            crit: self.crit,
            limit: self.limit,
        }
    }

    /// The stop of the first interval at a quantile.
    pub(crate) fn first_stop(&self, tau: F, stop: Stop<F>) -> IntervalStop<F>
        ensures { result ≡ record { asked = first_asked self.now tau; stop = stop } }
    {
        IntervalStop {
            asked: Asked {
                column: 0,
                tau,
                crit: self.crit,
            },
            stop,
        }
    }

    /// The solve at a quantile in whole numbers, which every column begins with; none where they are too wide.
    fn started(&self, alloc: Global, tau: F) -> Option<Started<'a, F>>
        requires { IsSolvable F.value self.now tau }
        ensures { IfSome result (IsStarted F.value self.now.problem.now (rational (F.value tau)) self.now.limit) }
    {
        match self.setting {
            Some(setting) => start_in_wholes(alloc, self.problem, setting, tau, self.limit),
            None => None,
        }
    }

    /// The quantile with it.
    pub(crate) fn start(&self, alloc: Global, tau: F) -> StartedAt<'a, F>
        requires { IsSolvable F.value self.now tau }
        ensures { IsStartedAt F.value self.now tau result }
    {
        let started = self.started(alloc, tau);
        StartedAt { tau, started }
    }

    /// The interval of a column, from the solve at its quantile.
    pub(crate) fn interval(
        &self,
        alloc: Global,
        started: &Option<Started<'a, F>>,
        asked: Asked<F>,
    ) -> Result<Interval, IntervalStop<F>>
        requires { IsWalkable F.value self.now asked started.now }
        ensures { IsIntervalAnswer F.value F.range self.now asked result }
    {
        match interval_after(alloc, self.problem, started, asked, self.limit) {
            Ok(interval) => Ok(interval),
            Err(stop) => Err(IntervalStop { asked, stop }),
        }
    }
}
