//! The model and the input of a table where no smooths are taken.
ghost use Rattle.std.specs.Prelude.{◌≡◌, ◌≤◌, ◌<◌, ◌^◌, length, IfOk, IfErr};
ghost use Rattle.rq_input.specs.Buildable.{IsBuildable};
ghost use Rattle.rq_input.specs.Plain.{HasPlainCause, HasPlainTableCause, IsPlain, IsPlainModel};
ghost use Rattle.rq_input.specs.PlainRows.{HasIntercept};
ghost use Rattle.rq_input.specs.Rows.{HasRows};

use crate::halt::{formula_halt, table_halt};
use crate::input::{Input, model_input};
use crate::model::read_model;
use data_frame::{Frame, read_table};
use formula_parser::Formula;
use report_text::{Halt, Refusal};
use rq_words::FitJob;
use std::alloc::Global;

/// The input of a job whose formula has no smooth, and whether it has an intercept.
#[derive(Drop)]
pub struct PlainInput {
    pub input: Input,
    pub intercept: bool,
}

/// The input of a job that takes no smooths, from at most 2^26 bytes.
///
/// `Refused` is the first fault, as of `read_input`; in place of `RankWithPenalty` it is `SmoothNotTaken`, exactly
/// where the formula has a smooth. `OutOfMemory` may come at any step, and no other halt comes.
pub fn read_plain(alloc: Global, job: &FitJob, bytes: &[u8]) -> Result<PlainInput, Halt>
    requires long { length job.now.formula < 2 ^ 31 }
    requires short { length bytes.now ≤ 2 ^ 26 }
    ensures is { IfOk result (IsPlain job.now bytes.now) }
    ensures rows { IfOk result (λ plain. HasRows plain.input) }
    ensures unpenalised { IfOk result (λ plain. length plain.input.smoothing.rows ≡ 0) }
    ensures intercept { IfOk result (λ plain. HasIntercept plain.intercept plain.input) }
    ensures cause { IfErr result (HasPlainCause job.now bytes.now) }
{
    let frame = match read_table(alloc, bytes) {
        Ok(frame) => frame,
        Err(fault) => return Err(table_halt(fault)),
    };
    match plain_model(alloc, job, &frame) {
        Ok((model, input)) => {
            let intercept = model.intercept;
            drop(model);
            Ok(PlainInput { input, intercept })
        }
        Err(halt) => Err(halt),
    }
}

/// The model of a table's formula, which has no smooth, and the input by it.
///
/// `Refused` is the first fault, as of `read_input`; in place of `RankWithPenalty` it is `SmoothNotTaken`, exactly
/// where the formula has a smooth.
pub(crate) fn plain_model(
    alloc: Global,
    job: &FitJob,
    frame: &Frame,
) -> Result<(Formula, Input), Halt>
    requires long { length job.now.formula < 2 ^ 31 }
    requires few { length frame.now.names ≤ 1024 }
    ensures plain { IfOk result (λ found. IsPlainModel job.now frame.now found.0 found.1) }
    ensures rows { IfOk result (λ found. HasRows found.1) }
    ensures unpenalised { IfOk result (λ found. length found.1.smoothing.rows ≡ 0) }
    ensures intercept { IfOk result (λ found. HasIntercept found.0.intercept found.1) }
    ensures buildable { IfOk result (λ found. IsBuildable frame.now.names found.0) }
    ensures cause { IfErr result (HasPlainTableCause job.now frame.now) }
{
    let model = match read_model(alloc, job, frame) {
        Ok(model) => model,
        Err(fault) => return Err(formula_halt(fault)),
    };
    if !model.smooths.as_slice().is_empty() {
        drop(model);
        return Err(Halt::Refused(Refusal::SmoothNotTaken));
    }
    match model_input(alloc, job, frame, &model) {
        Ok(input) => Ok((model, input)),
        Err(halt) => {
            drop(model);
            Err(halt)
        }
    }
}
