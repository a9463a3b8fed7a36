//! The job `predict`: the process over the range, and of each record whose response is missing its steps along the segments and
//! their rearrangement.
ghost use Rattle.std.specs.Prelude.{◌≡◌, ◌<◌, ◌≤◌, ◌^◌, All, length, IfOk, IfErr};
ghost use Rattle.std.specs.List.{AllZip};
ghost use Rattle.rational_laws.specs.Rational.{ℚ};
ghost use Rattle.frac_core.specs.Values.{value};
ghost use Rattle.loss_model.specs.Segment.{Covers, segments_of};
ghost use Rattle.rq_input.specs.Predictions.{HasEntries};
ghost use Rattle.rq_input.specs.Rows.{HasRows};
ghost use Rattle.rq_engine.specs.Asks.{IsFitAsk};
ghost use Rattle.rq_engine.specs.Predicted.{HasPredictedCause, IsPredictFitOf, IsPredictionBy};
ghost use Rattle.rq_engine.specs.Answers.{HasPredictCause, IsPredictFitOfBytes};

use crate::halt::stop_halt;
use crate::lowest::all_lowest_segments;
use design_matrix::{Design, PredictRow};
use frac_core::{Frac128, List, OutOfMemory};
use loss_model::{Problem, Process};
use predict_steps::laws::cover;
use predict_steps::{all_lowest_steps, rearrange, steps};
use report_text::{Halt, Place, PredictFit, Prediction};
use rq_input::{PredictionInput, read_predictions};
use rq_words::FitJob;
use std::alloc::Global;
use tau_process::process;

// The prediction of a row along the segments of a process.
fn prediction_of(
    alloc: Global,
    problem: &Problem<Frac128>,
    process: &Process,
    row: &PredictRow,
) -> Result<Prediction, OutOfMemory>
    requires some { 0 < length process.now.segments }
    requires vertices { All (λ s. length s.vertex.coef ≡ problem.now.columns) process.now.segments }
    requires asked { HasEntries problem.now.columns row.now }
    ensures { (lo hi : ℚ) → Covers (length problem.now.rows) lo hi (segments_of value problem.now process.now.segments)
        → IfOk result (IsPredictionBy lo hi process.now.segments row.now) }
{
    cover(problem, process);
    let steps = steps(alloc, process, row.x.as_slice(), row.offsets.as_slice())?;
    let rearranged = rearrange(alloc, steps.as_slice())?;
    all_lowest_steps(steps.as_slice());
    all_lowest_steps(rearranged.as_slice());
    Ok(Prediction {
        rec: row.rec,
        steps,
        rearranged,
    })
}

// The predictions of the rows that are asked.
fn predictions_of(
    alloc: Global,
    problem: &Problem<Frac128>,
    process: &Process,
    rows: &[PredictRow],
) -> Result<List<Prediction>, OutOfMemory>
    requires some { 0 < length process.now.segments }
    requires vertices { All (λ s. length s.vertex.coef ≡ problem.now.columns) process.now.segments }
    requires asked { All (HasEntries problem.now.columns) rows.now }
    ensures { (lo hi : ℚ) → Covers (length problem.now.rows) lo hi (segments_of value problem.now process.now.segments)
        → IfOk result (AllZip (IsPredictionBy lo hi process.now.segments) rows.now) }
{
    let mut predictions = List::new(alloc);
    for row in rows {
        let prediction = prediction_of(alloc, problem, process, row)?;
        predictions.add(prediction)?;
    }
    Ok(predictions)
}

// The predictions with what is told of the design. It takes no memory.
fn fit_of(design: Design, process: Process, predictions: List<Prediction>) -> PredictFit
    requires { length design.rows < 2 ^ 32 }
    ensures kept { result.kept ≡ length design.rows }
    ensures dropped { result.dropped ≡ design.dropped }
    ensures names { result.names ≡ design.names }
    ensures process { result.process ≡ process }
    ensures predictions { result.predictions ≡ predictions }
{
    let Design {
        names,
        rows,
        dropped,
    } = design;
    PredictFit {
        kept: rows.as_slice().len() as u32,
        dropped,
        names,
        process,
        predictions,
    }
}

/// The predictions of the rows that a job asks for, over its range, as steps along the segments of the process and
/// as their rearrangement (Koenker 2005; Chernozhukov, Fernández-Val and Galichon 2010).
///
/// `Dependent`, `PivotLimit` and `Overflow` are those of `process`. `OutOfMemory` may come at any step, and no other halt comes:
/// predictions are of any size.
pub(crate) fn predict_input(
    alloc: Global,
    job: &FitJob,
    asked: PredictionInput,
) -> Result<PredictFit, Halt>
    requires ask { IsFitAsk job.now }
    requires rows { HasRows asked.input }
    requires entries { All (HasEntries asked.input.problem.columns) asked.rows }
    ensures right { IfOk result (IsPredictFitOf job.now asked) }
    ensures cause { IfErr result (HasPredictedCause job.now asked) }
{
    let problem = &asked.input.problem;
    let walked = match process(alloc, problem, job.lo, job.hi, job.limit) {
        Ok(walked) => walked,
        Err(stop) => return Err(stop_halt(Place::Process, stop)),
    };
    let segments = walked.segments.as_slice();
    all_lowest_segments(segments);
    match predictions_of(alloc, problem, &walked, asked.rows.as_slice()) {
        Ok(predictions) => Ok(fit_of(asked.input.design, walked, predictions)),
        Err(OutOfMemory) => Err(Halt::OutOfMemory),
    }
}

/// The predictions over the range of a job, from the bytes of its input.
pub(crate) fn predict_bytes(alloc: Global, job: &FitJob, bytes: &[u8]) -> Result<PredictFit, Halt>
    requires ask { IsFitAsk job.now }
    requires long { length job.now.formula < 2 ^ 31 }
    requires short { length bytes.now ≤ 2 ^ 26 }
    ensures right { IfOk result (IsPredictFitOfBytes job.now bytes.now) }
    ensures cause { IfErr result (HasPredictCause job.now bytes.now) }
{
    match read_predictions(alloc, job, bytes) {
        Ok(asked) => predict_input(alloc, job, asked),
        Err(halt) => Err(halt),
    }
}
