//! An input, step by step: the table, its model, the design, what its smooths add, and the problem.
ghost use Rattle.std.specs.Prelude.{◌≡◌, ◌≤◌, ◌<◌, ◌^◌, length, option_copied, true, IfOk, IfErr};
ghost use Rattle.rq_input.specs.Buildable.{IsBuildable};
ghost use Rattle.rq_input.specs.Inputs.{HasInputCause, HasModelCause, HasTableCause, IsInput, IsModelInput, IsTableInput};
ghost use Rattle.rq_input.specs.PlainRows.{HasIntercept};
ghost use Rattle.rq_input.specs.Rows.{HasRows};

use crate::halt::{design_halt, formula_halt, penalty_halt, program_halt, table_halt};
use crate::model::read_model;
use data_frame::{Frame, read_table};
use design_matrix::{Design, build};
use formula_parser::Formula;
use frac_core::Frac128;
use loss_model::Problem;
use report_text::{Halt, Refusal};
use rq_program::problem;
use rq_words::FitJob;
use std::alloc::Global;
use tv_penalty::{Smoothing, qss_rows};

/// What the bytes of a job say: the design of their table by the job's formula and weights, what the
/// smooths of the formula add to it, and the problem of both. Its columns are those of the design and
/// then those of the smooths; its rows are the data rows and then the penalty rows.
#[derive(Drop)]
pub struct Input {
    pub design: Design,
    pub smoothing: Smoothing,
    pub problem: Problem<Frac128>,
}

/// The input of a job, from at most 2^26 bytes. `ranked` says that ranks, rank intervals or a rank test are
/// asked for, which formulas with smooths have none of; all rows are data rows then.
///
/// `Refused` is the first fault: of the bytes as a table, of the formula over the table's names,
/// `RankWithPenalty` exactly where ranks are asked for and the formula has a smooth, of the design, of
/// what the smooths add to it, or of the problem. `OutOfMemory` may come at any step, and no other
/// halt comes.
pub fn read_input(alloc: Global, job: &FitJob, ranked: bool, bytes: &[u8]) -> Result<Input, Halt>
    requires long { length job.now.formula < 2 ^ 31 }
    requires short { length bytes.now ≤ 2 ^ 26 }
    ensures is { IfOk result (IsInput job.now ranked bytes.now) }
    ensures rows { IfOk result HasRows }
    ensures unpenalised { IfOk result (λ input. ranked ≡ true → length input.smoothing.rows ≡ 0) }
    ensures cause { IfErr result (HasInputCause job.now ranked bytes.now) }
{
    match read_table(alloc, bytes) {
        Ok(frame) => table_input(alloc, job, ranked, &frame),
        Err(fault) => Err(table_halt(fault)),
    }
}

// The input of a table. What has many parts is let go by its type, also in the other modules: what a function lets go of so
// many parts by itself takes long to prove, and does so at each way out.
fn table_input(alloc: Global, job: &FitJob, ranked: bool, frame: &Frame) -> Result<Input, Halt>
    requires long { length job.now.formula < 2 ^ 31 }
    requires few { length frame.now.names ≤ 1024 }
    ensures is { IfOk result (IsTableInput job.now ranked frame.now) }
    ensures rows { IfOk result HasRows }
    ensures unpenalised { IfOk result (λ input. ranked ≡ true → length input.smoothing.rows ≡ 0) }
    ensures cause { IfErr result (HasTableCause job.now ranked frame.now) }
{
    let model = match read_model(alloc, job, frame) {
        Ok(model) => model,
        Err(fault) => return Err(formula_halt(fault)),
    };
    if ranked && !model.smooths.as_slice().is_empty() {
        drop(model);
        return Err(Halt::Refused(Refusal::RankWithPenalty));
    }
    match model_input(alloc, job, frame, &model) {
        Ok(input) => {
            drop(model);
            Ok(input)
        }
        Err(halt) => {
            drop(model);
            Err(halt)
        }
    }
}

// The name of the job's weights.
fn weights_of(job: &FitJob) -> Option<&str>
    ensures { option_copied result ≡ job.now.weights }
{
    match &job.weights {
        Some(name) => Some(name.as_str()),
        None => None,
    }
}

/// The input of a table by a model.
pub(crate) fn model_input(
    alloc: Global,
    job: &FitJob,
    frame: &Frame,
    model: &Formula,
) -> Result<Input, Halt>
    requires buildable { IsBuildable frame.now.names model.now }
    ensures is { IfOk result (IsModelInput job.now frame.now model.now) }
    ensures rows { IfOk result HasRows }
    ensures unpenalised { IfOk result (λ input. length model.now.smooths ≡ 0 → length input.smoothing.rows ≡ 0) }
    ensures intercept { IfOk result (HasIntercept model.now.intercept) }
    ensures cause { IfErr result (HasModelCause job.now frame.now model.now) }
{
    let design = match build(alloc, frame, model, job.coding, weights_of(job)) {
        Ok(design) => design,
        Err(fault) => return Err(design_halt(fault)),
    };
    let smoothing = match qss_rows(alloc, frame, &design, model) {
        Ok(smoothing) => smoothing,
        Err(fault) => return Err(penalty_halt(fault)),
    };
    match problem(alloc, &design, &smoothing) {
        Ok(problem) => Ok(Input {
            design,
            smoothing,
            problem,
        }),
        Err(fault) => Err(program_halt(fault)),
    }
}
