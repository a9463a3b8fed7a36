//! The job `test`: the rank test of nested models, from the start of its problem, the process without the tested columns, the
//! Wilcoxon scores of the rows by it, and the statistic.
ghost use Rattle.std.specs.Prelude.{◌≡◌, ℕ, ◌<◌, ◌^◌, All, length, IfOk, IfErr, ◌≤◌};
ghost use Rattle.frac_core.specs.Values.{value};
ghost use Rattle.loss_model.specs.Dual.{IsDataRow};
ghost use Rattle.loss_model.specs.FullRank.{HasFullRank};
ghost use Rattle.loss_model.specs.Problem.{sample, IsWellShaped};
ghost use Rattle.ratio.specs.Lowest.{IsLowest};
ghost use Rattle.nested_test.specs.Restricted.{restricted_problem};
ghost use Rattle.report_text.specs.ReportText.{IsPrintable};
ghost use Rattle.report_text.specs.declared.report.Report.TheVariants as reports;
ghost use Rattle.rq_input.specs.Rows.{HasRows};
ghost use Rattle.rq_input.specs.Tested.{AreColumns};
ghost use Rattle.rq_engine.specs.Asks.{IsUnitAsk, IsTestAsk};
ghost use Rattle.rq_engine.specs.Tested.{AreScoredBy, HasScoredCause, HasTestCause, IsTestFitOf};
ghost use Rattle.rq_engine.specs.Answers.{HasTestFitCause, IsTestFitOfBytes};

use crate::halt::stop_halt;
use crate::lowest::all_lowest_segments;
use basis_inverse::start;
use design_matrix::Design;
use frac_core::{Frac128, List, OutOfMemory};
use loss_model::{Problem, Process};
use nested_test::laws::restricted_is_askable;
use nested_test::{NestedStatistic, nested, restricted};
use rankscores::wilcoxon;
use ratio::{Ratio, all_lowest};
use report_text::{Halt, Place, TestFit};
use rq_input::{Input, read_tested};
use rq_words::TestJob;
use std::alloc::Global;
use tau_process::process;

// The process without the tested columns, and the Wilcoxon scores of the rows by it.
#[derive(Drop)]
struct ScoredProcess {
    process: Process,
    wilcoxon: List<Ratio>,
}

fn scored(alloc: Global, job: &TestJob, full: &Problem<Frac128>) -> Result<ScoredProcess, Halt>
    requires ask { IsUnitAsk job.now.fit }
    requires shaped { IsWellShaped full.now }
    requires data { (i : ℕ) → i < length full.now.rows → IsDataRow (sample value full.now) i }
    requires rank { HasFullRank (sample value full.now) }
    requires tested { AreColumns full.now.columns job.now.tested }
    ensures right { IfOk result (λ s. AreScoredBy job.now.fit (restricted_problem job.now.tested full.now) s.process s.wilcoxon) }
    ensures cause { IfErr result (HasScoredCause job.now.fit (restricted_problem job.now.tested full.now)) }
{
    restricted_is_askable(full);
    let problem = match restricted(alloc, full, job.tested.as_slice()) {
        Ok(problem) => problem,
        Err(OutOfMemory) => return Err(Halt::OutOfMemory),
    };
    let fit = &job.fit;
    let process = match process(alloc, &problem, fit.lo, fit.hi, fit.limit) {
        Ok(process) => process,
        Err(stop) => return Err(stop_halt(Place::Process, stop)),
    };
    all_lowest_segments(process.segments.as_slice());
    match wilcoxon(alloc, &problem, &process) {
        Ok(wilcoxon) => Ok(ScoredProcess { process, wilcoxon }),
        Err(OutOfMemory) => Err(Halt::OutOfMemory),
    }
}

// The test with what is told of the design. It takes no memory.
fn fit_of(design: Design, tested: List<u32>, process: Process, found: NestedStatistic) -> TestFit
    requires { length design.rows < 2 ^ 32 }
    ensures kept { result.kept ≡ length design.rows }
    ensures dropped { result.dropped ≡ design.dropped }
    ensures names { result.names ≡ design.names }
    ensures tested { result.tested ≡ tested }
    ensures process { result.process ≡ process }
    ensures scores { result.scores ≡ found.scores }
    ensures statistic { result.statistic ≡ found.statistic }
    ensures lowest_scores { All IsLowest result.scores }
    ensures lowest { IsLowest result.statistic }
{
    all_lowest(found.scores.as_slice());
    found.statistic.lowest();
    let Design {
        names,
        rows,
        dropped,
    } = design;
    TestFit {
        kept: rows.as_slice().len() as u32,
        dropped,
        names,
        tested,
        process,
        scores: found.scores,
        statistic: found.statistic,
    }
}

/// The rank test of the columns of an input that a job asks for (Gutenbrunner, Jurečková, Koenker and Portnoy 1993): the
/// process over 0 to 1 without these columns, the scores of these by the Wilcoxon scores of that process, and the
/// statistic. The input has no penalty rows.
///
/// `Dependent` and `Overflow` at `Full` are those of the start of the whole problem; `PivotLimit` and `Overflow` of the
/// process are those of `process`. `OutOfMemory` may come at any step, and no other halt comes: scores, Gram matrix and
/// statistic are of any size.
pub(crate) fn test_input(alloc: Global, job: &TestJob, input: Input) -> Result<TestFit, Halt>
    requires ask { IsUnitAsk job.now.fit }
    requires rows { HasRows input }
    requires unpenalised { length input.smoothing.rows ≡ 0 }
    requires tested { AreColumns input.problem.columns job.now.tested }
    ensures right { IfOk result (IsTestFitOf job.now input) }
    ensures printable { IfOk result (λ fit. IsPrintable (reports.Test fit)) }
    ensures cause { IfErr result (HasTestCause job.now input) }
{
    let full = &input.problem;
    let _started = match start(alloc, full) {
        Ok(started) => started,
        Err(stop) => return Err(stop_halt(Place::Full, stop)),
    };
    let ScoredProcess { process, wilcoxon } = match scored(alloc, job, full) {
        Ok(scored) => scored,
        Err(halt) => return Err(halt),
    };
    let tested = job.tested.as_slice();
    let found = match nested(alloc, full, tested, wilcoxon.as_slice()) {
        Ok(found) => found,
        Err(OutOfMemory) => return Err(Halt::OutOfMemory),
    };
    match List::copy(alloc, tested) {
        Ok(tested) => Ok(fit_of(input.design, tested, process, found)),
        Err(OutOfMemory) => Err(Halt::OutOfMemory),
    }
}

/// The rank test of the columns that a job asks for, from the bytes of its input.
pub(crate) fn test_bytes(alloc: Global, job: &TestJob, bytes: &[u8]) -> Result<TestFit, Halt>
    requires ask { IsTestAsk job.now }
    requires long { length job.now.fit.formula < 2 ^ 31 }
    requires short { length bytes.now ≤ 2 ^ 26 }
    ensures right { IfOk result (IsTestFitOfBytes job.now bytes.now) }
    ensures printable { IfOk result (λ fit. IsPrintable (reports.Test fit)) }
    ensures cause { IfErr result (HasTestFitCause job.now bytes.now) }
{
    match read_tested(alloc, job, bytes) {
        Ok(input) => test_input(alloc, job, input),
        Err(halt) => Err(halt),
    }
}
