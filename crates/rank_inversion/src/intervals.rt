//! All rank intervals that are asked of a problem.
ghost use Rattle.std.specs.Prelude.{◌≡◌, ◌<◌, All, length, map, IfOk, IfErr};
ghost use Rattle.std.specs.List.{AllZip};
ghost use Rattle.rational_laws.specs.Fraction.{rational};
ghost use Rattle.frac_core.specs.Values.{value};
ghost use Rattle.rank_inversion.specs.Jobs.{range};
ghost use Rattle.rank_inversion.specs.Answers.{IsIntervalAnswer, IsStart, IsStartedAt};
ghost use Rattle.rank_inversion.specs.AllIntervals.{AreRightIntervals, asked_at, asked_over, IsFirstStop};
ghost use Rattle.rank_inversion.specs.Intervals.{HasFactors};
ghost use Rattle.rank_inversion.specs.RankProblems.{IsInner, IsRankable, IsRankProblem, IsSolvable};
ghost use Rattle.rank_inversion.specs.Until.{AreAnswered};

use crate::asks::{IntervalStop, RankAsks, RankProblem, StartedAt, whole_setting};
use crate::column_test::Asked;
use crate::jobs::{ColumnJob, StartJob};
use crate::until::{UntilStop, until_stop};
use frac_core::{Exact, Frac128, List, OutOfMemory};
use loss_model::{Interval, Problem, Stop};
use rq_fan::{Gate, run_jobs};
use std::alloc::Global;
use std::thread::Threads;

/// The columns at a quantile: the solve that each begins with, the gate, and the place of the first one's job.
#[derive(Drop)]
struct ColumnsAt<'a, 'b, F: Exact, G> {
    at: &'b StartedAt<'a, F>,
    gate: &'b G,
    place: u32,
}

impl<'a, F: Exact> RankProblem<'a, F> {
    /// The job of a quantile.
    fn start_job(&self, alloc: Global, tau: F) -> StartJob<'a, F>
        requires { IsSolvable F.value self.now tau }
        ensures { result ≡ (self.now, tau) }
    {
        StartJob {
            alloc,
            ranked: self.again(),
            tau,
        }
    }

    /// A job for each quantile.
    fn start_jobs(&self, alloc: Global, taus: &[F]) -> Result<Vec<StartJob<'a, F>>, OutOfMemory>
        requires ready { IsRankProblem F.value self.now }
        requires taus { All (λ tau. IsInner (rational (F.value tau))) taus.now }
        ensures { IfOk result (λ jobs. jobs.items ≡ map (λ tau. (self.now, tau)) taus.now) }
    {
        let mut jobs = Vec::new(alloc);
        for tau in taus {
            match jobs.push(self.start_job(alloc, *tau)) {
                Ok(()) => {}
                Err(_) => return Err(OutOfMemory),
            }
        }
        Ok(jobs)
    }

    /// The job of a column.
    fn column_job<'b, G: Gate>(
        &self,
        alloc: Global,
        columns: &ColumnsAt<'a, 'b, F, G>,
        column: u32,
    ) -> ColumnJob<'a, 'b, F, G>
        requires ready { IsRankProblem F.value self.now }
        requires start { IsStart F.value self.now columns.now.at.now }
        requires column { column < self.now.problem.now.columns }
        ensures { result ≡ (self.now, record { column = column; tau = columns.now.at.now.tau; crit = self.now.crit }) }
    {
        ColumnJob {
            alloc,
            ranked: self.again(),
            started: &columns.at.started,
            asked: Asked {
                column,
                tau: columns.at.tau,
                crit: self.crit,
            },
            gate: columns.gate,
            place: columns.place.saturating_add(column),
        }
    }

    /// A job for each column at a quantile.
    fn jobs_at<'b, G: Gate>(
        &self,
        alloc: Global,
        columns: &ColumnsAt<'a, 'b, F, G>,
    ) -> Result<Vec<ColumnJob<'a, 'b, F, G>>, OutOfMemory>
        requires ready { IsRankProblem F.value self.now }
        requires start { IsStart F.value self.now columns.now.at.now }
        ensures { IfOk result (λ jobs. jobs.items ≡ map (λ asked. (self.now, asked)) (asked_at self.now.crit self.now.problem.now.columns columns.now.at.now.tau)) }
    {
        let mut jobs = Vec::new(alloc);
        for column in 0..self.problem.columns {
            match jobs.push(self.column_job(alloc, columns, column)) {
                Ok(()) => {}
                Err(_) => return Err(OutOfMemory),
            }
        }
        Ok(jobs)
    }

    /// A job for each quantile and column.
    fn column_jobs<'b, G: Gate>(
        &self,
        alloc: Global,
        starts: &'b [StartedAt<'a, F>],
        gate: &'b G,
    ) -> Result<Vec<ColumnJob<'a, 'b, F, G>>, OutOfMemory>
        requires ready { IsRankProblem F.value self.now }
        requires starts { All (IsStart F.value self.now) starts.now }
        ensures { IfOk result (λ jobs. jobs.items ≡ map (λ asked. (self.now, asked)) (asked_over self.now.crit self.now.problem.now.columns (map (λ at. at.tau) starts.now))) }
    {
        let mut jobs = Vec::new(alloc);
        for at in starts {
            // No list of words asks for so many intervals that a place is lost.
            let place = u32::try_from(jobs.len()).unwrap_or(u32::MAX);
            let mut more = self.jobs_at(alloc, &ColumnsAt { at, gate, place })?;
            match jobs.append(&mut more) {
                Ok(()) => {}
                Err(_) => return Err(OutOfMemory),
            }
        }
        Ok(jobs)
    }
}

impl<'a> RankProblem<'a, Frac128> {
    /// The solves at the quantiles.
    fn starts<R: Threads + Sync>(
        &self,
        rt: &R,
        alloc: Global,
        taus: &[Frac128],
    ) -> Result<Vec<StartedAt<'a, Frac128>>, OutOfMemory>
        requires ready { IsRankProblem value self.now }
        requires taus { All (λ tau. IsInner (rational (value tau))) taus.now }
        ensures { IfOk result (λ starts. AllZip (IsStartedAt value self.now) taus.now starts.items) }
    {
        let jobs = self.start_jobs(alloc, taus)?;
        let answers = run_jobs(rt, alloc, jobs)?;
        Ok(answers)
    }

    /// The intervals of all columns from these solves, up to the first that stops.
    fn intervals<R: Threads + Sync, G: Gate>(
        &self,
        rt: &R,
        alloc: Global,
        starts: &[StartedAt<'a, Frac128>],
        gate: &G,
    ) -> Result<UntilStop<Interval, IntervalStop<Frac128>>, OutOfMemory>
        requires ready { IsRankProblem value self.now }
        requires starts { All (IsStart value self.now) starts.now }
        ensures { IfOk result (λ until. AreAnswered (IsIntervalAnswer value range self.now) (asked_over self.now.crit self.now.problem.now.columns (map (λ at. at.tau) starts.now)) until.done.items until.stop) }
    {
        let jobs = self.column_jobs(alloc, starts, gate)?;
        let answers = run_jobs(rt, alloc, jobs)?;
        until_stop(alloc, answers)
    }

    /// The intervals at all quantiles, of which there is one at least.
    fn over<R: Threads + Sync, G: Gate>(
        &self,
        rt: &R,
        alloc: Global,
        taus: &[Frac128],
        gate: &G,
    ) -> Result<List<Interval>, IntervalStop<Frac128>>
        requires ready { IsRankProblem value self.now }
        requires taus { All (λ tau. IsInner (rational (value tau))) taus.now }
        requires some { 0 < length taus.now }
        ensures right { IfOk result (AreRightIntervals value self.now.problem.now self.now.limit (asked_over self.now.crit self.now.problem.now.columns taus.now)) }
        ensures listed { IfOk result (All HasFactors) }
        ensures stopped { IfErr result (λ s. IsFirstStop value range self.now.problem.now self.now.limit (asked_over self.now.crit self.now.problem.now.columns taus.now) s.asked s.stop) }
    {
        let starts = match self.starts(rt, alloc, taus) {
            Ok(starts) => starts,
            Err(_) => return Err(self.first_stop(taus[0], Stop::OutOfMemory)),
        };
        let intervals = match self.intervals(rt, alloc, starts.as_slice(), gate) {
            Ok(intervals) => intervals,
            Err(_) => return Err(self.first_stop(taus[0], Stop::OutOfMemory)),
        };
        let UntilStop { done, stop } = intervals;
        if let Some(stop) = stop {
            return Err(stop);
        }
        Ok(List::from(done))
    }
}

/// The rank intervals of a problem of data rows for a critical value, at the quantiles as given and column
/// by column within; or the first of them that stops. Each interval is a job, which enters the gate with its
/// place in this order before it works. The limit counts the pivots of each interval. Each lists the factors of its
/// projection, as a certificate has them.
pub fn all_intervals<R: Threads + Sync, G: Gate>(
    rt: &R,
    alloc: Global,
    problem: &Problem<Frac128>,
    asks: &RankAsks<Frac128>,
    gate: &G,
) -> Result<List<Interval>, IntervalStop<Frac128>>
    requires rankable { IsRankable value problem.now asks.now.crit }
    requires taus { All (λ tau. IsInner (rational (value tau))) asks.now.taus.now }
    ensures right { IfOk result (AreRightIntervals value problem.now asks.now.limit (asked_over asks.now.crit problem.now.columns asks.now.taus.now)) }
    ensures listed { IfOk result (All HasFactors) }
    ensures stopped { IfErr result (λ s. IsFirstStop value range problem.now asks.now.limit (asked_over asks.now.crit problem.now.columns asks.now.taus.now) s.asked s.stop) }
{
    let Some(_first) = asks.taus.first() else {
        return Ok(List::new(alloc));
    };
    let setting = whole_setting(alloc, problem);
    let ranked = RankProblem {
        problem,
        setting: &setting,
        crit: asks.crit,
        limit: asks.limit,
    };
    let all = ranked.over(rt, alloc, asks.taus, gate);
    drop(setting);
    all
}
