//! The fit of an input: the process over the range, the scores of its segments, and the rank intervals
//! that are asked for.
ghost use Rattle.std.specs.Prelude.{◌≡◌, ◌≢◌, ℕ, ◌<◌, ◌≤◌, ◌^◌, ◌++◌, All, is_some, length, pos, true, IfOk, IfErr};
ghost use Rattle.std.specs.List.{AllZip};
ghost use Rattle.rational_laws.specs.Rational.{whole};
ghost use Rattle.frac_core.specs.Values.{value};
ghost use Rattle.loss_model.specs.Dual.{IsDataRow};
ghost use Rattle.loss_model.specs.Problem.{sample, IsWellShaped};
ghost use Rattle.rankscores.specs.Scores.{IsScorable, IsScored};
ghost use Rattle.report_text.specs.ReportText.{IsPrintable};
ghost use Rattle.report_text.specs.declared.report.Report.TheVariants as reports;
ghost use Rattle.rq_input.specs.Rows.{HasRows};
ghost use Rattle.rq_engine.specs.Asks.{IsFitAsk, IsRankAskOf};
ghost use Rattle.rq_engine.specs.Fit.{IsFitOf, IsFitUnder};
ghost use Rattle.rq_engine.specs.Intervals.{AreRightIntervals, HasFactors, asked_by};
ghost use Rattle.rq_engine.specs.RankProblems.{HasIntervalCause};
ghost use Rattle.rq_engine.specs.Stops.{HasProblemCause};

use crate::halt::{interval_halt, stop_halt};
use crate::lowest::{all_lowest_intervals, all_lowest_scores, all_lowest_segments};
use frac_core::{Exact, Frac128, List, OutOfMemory};
use loss_model::{Interval, Problem, Process, Segment};
use rank_inversion::{RankAsks, all_intervals};
use rankscores::{ScorePair, scores};
use report_text::{Fit, Halt, Place};
use rq_fan::Gate;
use rq_input::Input;
use rq_words::FitJob;
use std::alloc::Global;
use std::thread::Threads;
use tau_process::process;

// The rankscores of the basic rows of each segment of a problem whose first `data_rows` rows are data
// rows. Of a later row they are its dual values.
fn all_scores<F: Exact>(
    alloc: Global,
    problem: &Problem<F>,
    data_rows: u32,
    segments: &[Segment],
) -> Result<List<List<ScorePair>>, OutOfMemory>
    requires scorable { All (IsScorable problem.now) segments.now }
    requires weighted { (i : ℕ) → i < data_rows → (sample F.value problem.now).up1 i ≢ whole (pos 0) }
    ensures { IfOk result (AllZip (IsScored F.value problem.now data_rows) segments.now) }
{
    let mut all = List::new(alloc);
    for (number, segment) in segments.iter().enumerate() {
        let pairs = scores(alloc, problem, data_rows, segment)?;
        all.add(pairs)?;
    }
    Ok(all)
}

// The rank intervals that a job asks for, as jobs that enter the gate.
//
// A stop of one of them is that of the first, with its column and its quantile.
fn job_intervals<R: Threads + Sync, G: Gate>(
    rt: &R,
    alloc: Global,
    job: &FitJob,
    problem: &Problem<Frac128>,
    gate: &G,
) -> Result<List<Interval>, Halt>
    requires asked { IsRankAskOf job.now.rank }
    requires shaped { IsWellShaped problem.now }
    requires data { is_some job.now.rank ≡ true → (i : ℕ) → i < length problem.now.rows → IsDataRow (sample value problem.now) i }
    ensures right { IfOk result (AreRightIntervals value problem.now job.now.limit (asked_by job.now.rank problem.now.columns)) }
    ensures listed { IfOk result (All HasFactors) }
    ensures cause { IfErr result (HasIntervalCause job.now problem.now) }
{
    let Some(rank) = &job.rank else {
        return Ok(List::new(alloc));
    };
    let asks = RankAsks {
        crit: rank.crit,
        taus: rank.taus.as_slice(),
        limit: job.limit,
    };
    match all_intervals(rt, alloc, problem, &asks, gate) {
        Ok(intervals) => Ok(intervals),
        Err(stopped) => Err(interval_halt(stopped)),
    }
}

// The items of two lists, one after the other.
fn joined<T: Drop>(first: List<T>, second: List<T>) -> Result<List<T>, OutOfMemory>
    ensures { IfOk result (λ items. items ≡ first ++ second) }
{
    let mut items = first.into_vec();
    let mut rest = second.into_vec();
    match items.append(&mut rest) {
        Ok(()) => Ok(List::from(items)),
        Err(_) => Err(OutOfMemory),
    }
}

// The fit of an input. It refuses only for memory.
fn fit_of(
    input: Input,
    process: Process,
    scores: List<List<ScorePair>>,
    intervals: List<Interval>,
) -> Result<Fit, OutOfMemory>
    requires { length input.design.rows < 2 ^ 32 }
    ensures process { IfOk result (λ fit. fit.process ≡ process) }
    ensures scores { IfOk result (λ fit. fit.scores ≡ scores) }
    ensures intervals { IfOk result (λ fit. fit.intervals ≡ intervals) }
    ensures under { IfOk result (IsFitUnder input) }
{
    let Input {
        design,
        smoothing,
        problem,
    } = input;
    let data_rows = design.rows.as_slice().len() as u32;
    // The names of the columns of the design, and then those of its smooths.
    let names = joined(design.names, smoothing.names)?;
    Ok(Fit {
        kept: data_rows,
        dropped: design.dropped,
        names,
        data_rows,
        problem,
        process,
        scores,
        intervals,
    })
}

/// The fit of an input over the range of a job, with the rank intervals that it asks for (Koenker 2005;
/// Koenker and d'Orey 1987); for these the input has no penalty rows.
///
/// `Dependent`, and `PivotLimit` and `Overflow` of the process are those of `process`; after it comes the first stop of an
/// interval, with its column and its quantile. `OutOfMemory` may come at any step, and no other halt comes. Each interval is a job
/// of its own, which enters the gate with its place among them before it works, and lists the factors of its projection.
pub(crate) fn fit_input<R: Threads + Sync, G: Gate>(
    rt: &R,
    alloc: Global,
    job: &FitJob,
    input: Input,
    gate: &G,
) -> Result<Fit, Halt>
    requires ask { IsFitAsk job.now }
    requires rows { HasRows input }
    requires unpenalised { is_some job.now.rank ≡ true → length input.smoothing.rows ≡ 0 }
    ensures right { IfOk result (IsFitOf job.now input) }
    ensures printable { IfOk result (λ fit. IsPrintable (reports.Process fit)) }
    ensures listed { IfOk result (λ fit. All HasFactors fit.intervals) }
    ensures cause { IfErr result (HasProblemCause job.now (length input.design.rows) input.problem) }
{
    let walked = match process(alloc, &input.problem, job.lo, job.hi, job.limit) {
        Ok(walked) => walked,
        Err(stop) => return Err(stop_halt(Place::Process, stop)),
    };
    let data_rows = input.design.rows.as_slice().len() as u32;
    let segments = walked.segments.as_slice();
    all_lowest_segments(segments);
    let scores = match all_scores(alloc, &input.problem, data_rows, segments) {
        Ok(scores) => scores,
        Err(OutOfMemory) => return Err(Halt::OutOfMemory),
    };
    let intervals = match job_intervals(rt, alloc, job, &input.problem, gate) {
        Ok(intervals) => intervals,
        Err(halt) => return Err(halt),
    };
    all_lowest_scores(scores.as_slice());
    all_lowest_intervals(intervals.as_slice());
    match fit_of(input, walked, scores, intervals) {
        Ok(fit) => Ok(fit),
        Err(_) => Err(Halt::OutOfMemory),
    }
}
