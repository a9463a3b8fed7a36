//! What is asked to be predicted: an input without smooths, and the rows of the records whose response is missing.
ghost use Rattle.std.specs.Prelude.{◌≡◌, ◌≤◌, ◌<◌, ◌^◌, All, length, IfOk, IfErr};
ghost use Rattle.std.specs.List.{AllZip};
ghost use Rattle.design_matrix.specs.Predicted.{predicted};
ghost use Rattle.rq_input.specs.Predictions.{ArePredicted, HasEntries, HasPredictionCause, IsPrediction};
ghost use Rattle.rq_input.specs.Predicting.{HasRow, HasRowsCause, LacksRowOf, Modelled};
ghost use Rattle.rq_input.specs.Rows.{HasRows};

use crate::halt::{design_halt, table_halt};
use crate::input::Input;
use crate::plain::plain_model;
use contrasts::Coding;
use data_frame::{Frame, read_table};
use design_matrix::{Design, DesignFault, PredictRow, predict_row, predicted_records};
use formula_parser::Formula;
use frac_core::List;
use report_text::{Halt, Refusal};
use rq_words::FitJob;
use std::alloc::Global;

/// The most records that are predicted.
const MOST_PREDICTIONS: usize = 64;

/// The input of a prediction, whose formula has no smooth, and the rows of the records that are predicted, in their
/// order.
#[derive(Drop)]
pub struct PredictionInput {
    pub input: Input,
    pub rows: List<PredictRow>,
}

// What the rows of predicted records are made of.
#[derive(Clone, Copy)]
struct Predicting<'a> {
    frame: &'a Frame,
    model: &'a Formula,
    coding: Coding,
    design: &'a Design,
}

impl Predicting<'_> {
    // The rows of these records, or the fault of the first that has none.
    fn rows_of(&self, alloc: Global, records: &[u32]) -> Result<List<PredictRow>, DesignFault>
        requires built { Modelled self.now.frame.now self.now.model.now self.now.coding self.now.design.now }
        requires asked { records.now ≡ predicted self.now.frame.now self.now.model.now }
        ensures rows { IfOk result (AllZip (HasRow self.now.frame.now self.now.model.now self.now.coding self.now.design.now) records.now) }
        ensures cause { IfErr result (LacksRowOf self.now.frame.now self.now.model.now self.now.coding self.now.design.now) }
    {
        let mut rows = List::new(alloc);
        for rec in records {
            let row = match predict_row(
                alloc,
                self.frame,
                self.model,
                self.coding,
                self.design,
                *rec,
            ) {
                Ok(row) => row,
                Err(fault) => return Err(fault),
            };
            rows.add(row)?;
        }
        Ok(rows)
    }

    // The rows of all predicted records.
    fn rows(&self, alloc: Global) -> Result<List<PredictRow>, Halt>
        requires built { Modelled self.now.frame.now self.now.model.now self.now.coding self.now.design.now }
        requires few { length self.now.design.now.names ≤ 128 }
        ensures rows { IfOk result (ArePredicted self.now.frame.now self.now.model.now self.now.coding self.now.design.now) }
        ensures entries { IfOk result (All (HasEntries (length self.now.design.now.names))) }
        ensures cause { IfErr result (HasRowsCause self.now.frame.now self.now.model.now self.now.coding self.now.design.now) }
    {
        // A number of 32 bits: no more records are predicted than a refusal can tell.
        let _most = self.frame.records();
        let records = match predicted_records(alloc, self.frame, self.model, self.design) {
            Ok(records) => records,
            Err(_) => return Err(Halt::OutOfMemory),
        };
        let records = records.as_slice();
        if records.is_empty() {
            return Err(Halt::Refused(Refusal::NothingToPredict));
        }
        if records.len() > MOST_PREDICTIONS {
            return Err(Halt::Refused(Refusal::TooManyPredictions {
                found: records.len() as u32,
            }));
        }
        match self.rows_of(alloc, records) {
            Ok(rows) => Ok(rows),
            Err(fault) => Err(design_halt(fault)),
        }
    }
}

/// What a job asks to be predicted, from at most 2^26 bytes.
///
/// `Refused` is the first fault, as of `read_input`, with `SmoothNotTaken` in place of `RankWithPenalty`; then `NothingToPredict` exactly where no record has a missing
/// response and all other used cells, the weight apart; `TooManyPredictions` exactly past 64 of them; and then that of
/// `predict_row` of the first record that has no row. `OutOfMemory` may come at any step, and no other halt comes.
pub fn read_predictions(alloc: Global, job: &FitJob, bytes: &[u8]) -> Result<PredictionInput, Halt>
    requires long { length job.now.formula < 2 ^ 31 }
    requires short { length bytes.now ≤ 2 ^ 26 }
    ensures is { IfOk result (IsPrediction job.now bytes.now) }
    ensures rows { IfOk result (λ asked. HasRows asked.input) }
    ensures unpenalised { IfOk result (λ asked. length asked.input.smoothing.rows ≡ 0) }
    ensures entries { IfOk result (λ asked. All (HasEntries asked.input.problem.columns) asked.rows) }
    ensures cause { IfErr result (HasPredictionCause job.now bytes.now) }
{
    let frame = match read_table(alloc, bytes) {
        Ok(frame) => frame,
        Err(fault) => return Err(table_halt(fault)),
    };
    let (model, input) = match plain_model(alloc, job, &frame) {
        Ok(found) => found,
        Err(halt) => return Err(halt),
    };
    let predicting = Predicting {
        frame: &frame,
        model: &model,
        coding: job.coding,
        design: &input.design,
    };
    match predicting.rows(alloc) {
        Ok(rows) => {
            drop(model);
            Ok(PredictionInput { input, rows })
        }
        Err(halt) => {
            drop(input);
            drop(model);
            Err(halt)
        }
    }
}
