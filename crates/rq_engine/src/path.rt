//! The job `path`: the l1 path in lambda at one quantile, from its path problem and the process over lambda.
ghost use Rattle.std.specs.Prelude.{◌≡◌, ◌<◌, ◌≤◌, ◌^◌, length, IfOk, IfErr};
ghost use Rattle.report_text.specs.ReportText.{IsPrintable};
ghost use Rattle.report_text.specs.declared.report.Report.TheVariants as reports;
ghost use Rattle.rq_input.specs.Rows.{HasRows};
ghost use Rattle.rq_input.specs.PlainRows.{HasIntercept};
ghost use Rattle.rq_engine.specs.Asks.{IsPathAsk};
ghost use Rattle.rq_engine.specs.Paths.{HasPathCause, IsPathFitOf, first_penalised as first_penalised_of};
ghost use Rattle.rq_engine.specs.PathHalts.{path_halt as path_halt_of};
ghost use Rattle.rq_engine.specs.Answers.{HasPathFitCause, IsPathFitOfBytes};

use crate::halt::stop_halt;
use crate::lowest::all_lowest_segments;
use design_matrix::Design;
use frac_core::{Frac128, List};
use lambda_path::laws::path_is_askable;
use lambda_path::{PathFault, path_problem};
use loss_model::{Problem, Process, Trail};
use report_text::{Halt, PathFit, Place, Refusal};
use rq_input::{PlainInput, read_plain};
use rq_program::ProgramFault;
use rq_words::PathJob;
use std::alloc::Global;
use tau_process::process;

// The first column whose coefficient is penalised: the one behind the intercept.
fn first_penalised(intercept: bool) -> u32
    ensures { result ≡ first_penalised_of intercept }
{
    if intercept { 1 } else { 0 }
}

// The halt of a path problem that can't be made. Its trail is empty, and takes no memory.
fn path_halt(alloc: Global, fault: PathFault) -> Halt
    ensures { result ≡ path_halt_of fault }
{
    match fault {
        PathFault::OutOfMemory => Halt::OutOfMemory,
        PathFault::TooManyRows => Halt::Refused(Refusal::Program(ProgramFault::TooManyRows)),
        PathFault::Overflow(spill) => Halt::Overflow {
            place: Place::Path,
            trail: Trail {
                start: List::new(alloc),
                steps: List::new(alloc),
                rise: List::new(alloc),
                fall: List::new(alloc),
            },
            spill,
        },
    }
}

// The path with what is told of the design. It takes no memory.
fn fit_of(design: Design, problem: Problem<Frac128>, process: Process) -> PathFit
    requires { length design.rows < 2 ^ 32 }
    ensures kept { result.kept ≡ length design.rows }
    ensures dropped { result.dropped ≡ design.dropped }
    ensures names { result.names ≡ design.names }
    ensures data_rows { result.data_rows ≡ length design.rows }
    ensures problem { result.problem ≡ problem }
    ensures process { result.process ≡ process }
{
    let Design {
        names,
        rows,
        dropped,
    } = design;
    let data_rows = rows.as_slice().len() as u32;
    PathFit {
        kept: data_rows,
        dropped,
        names,
        data_rows,
        problem,
        process,
    }
}

/// The path in lambda of an input over the range of a job, at its quantile (the lasso penalty of Koenker 2005,
/// section 4.9).
///
/// `Program(TooManyRows)` and `Overflow` at the path are those of `path_problem`, with an empty trail; `PivotLimit` and
/// `Overflow` of the process are those of `process`. `OutOfMemory` may come at any step, and no other halt comes: the
/// columns of a path problem are never dependent.
pub(crate) fn path_input(alloc: Global, job: &PathJob, plain: PlainInput) -> Result<PathFit, Halt>
    requires ask { IsPathAsk job.now }
    requires rows { HasRows plain.input }
    requires unpenalised { length plain.input.smoothing.rows ≡ 0 }
    requires intercept { HasIntercept plain.intercept plain.input }
    ensures right { IfOk result (IsPathFitOf job.now plain) }
    ensures printable { IfOk result (λ fit. IsPrintable (reports.Path fit)) }
    ensures cause { IfErr result (HasPathCause job.now plain) }
{
    path_is_askable();
    let input = plain.input;
    let first = first_penalised(plain.intercept);
    let problem = match path_problem(alloc, &input.problem, first, job.tau) {
        Ok(problem) => problem,
        Err(fault) => return Err(path_halt(alloc, fault)),
    };
    let fit = &job.fit;
    match process(alloc, &problem, fit.lo, fit.hi, fit.limit) {
        Ok(walked) => {
            all_lowest_segments(walked.segments.as_slice());
            Ok(fit_of(input.design, problem, walked))
        }
        Err(stop) => Err(stop_halt(Place::Process, stop)),
    }
}

/// The path over the lambdas of a job at its quantile, from the bytes of its input.
pub(crate) fn path_bytes(alloc: Global, job: &PathJob, bytes: &[u8]) -> Result<PathFit, Halt>
    requires ask { IsPathAsk job.now }
    requires long { length job.now.fit.formula < 2 ^ 31 }
    requires short { length bytes.now ≤ 2 ^ 26 }
    ensures right { IfOk result (IsPathFitOfBytes job.now bytes.now) }
    ensures printable { IfOk result (λ fit. IsPrintable (reports.Path fit)) }
    ensures cause { IfErr result (HasPathFitCause job.now bytes.now) }
{
    match read_plain(alloc, &job.fit, bytes) {
        Ok(plain) => path_input(alloc, job, plain),
        Err(halt) => Err(halt),
    }
}
