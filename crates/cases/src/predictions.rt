//! Records that are predicted, and their rows or why they have none.

ghost use Rattle.std.specs.Prelude.{◌≡◌, ◌<◌, ◌^◌, All, Contains, Option as option, length};
ghost use Rattle.data_frame.specs.Records.{Text as text};
ghost use Rattle.design_matrix.specs.Faults.{IsDesign};
ghost use Rattle.design_matrix.specs.Predicted.{predicted};
ghost use Rattle.formula_parser.specs.Held.{IsHeld, ariths_of};

use crate::designs::{Asked, asked_in, tell_fault};
use crate::models::model_of;
use crate::told::{Told, shared_frame};
use contrasts::Coding;
use data_frame::Frame;
use design_matrix::{Design, PredictRow, build, predict_row, predicted_records};
use formula_parser::Formula;

// A row by the number of its record, its entries, and the values of the offsets where there are some.
fn tell_row(told: &mut Told, row: &PredictRow) {
    told.put_named("", row.rec);
    told.put(": ");
    told.put_numbers(row.x.as_slice());
    if !row.offsets.as_slice().is_empty() {
        told.put(" - ");
        told.put_numbers(row.offsets.as_slice());
    }
}

// What comes of a predicted record.
fn tell_record(
    told: &mut Told,
    frame: &Frame,
    model: &Formula,
    coding: Coding,
    design: &Design,
    rec: u32,
)
    requires short { All (λ t. length t.variables < 2 ^ 32) model.now.terms }
    requires held { All (IsHeld frame.now.names) (ariths_of model.now) }
    requires built { (weights : option text) × IsDesign frame.now model.now coding weights design.now }
    requires plain { length model.now.smooths ≡ 0 }
    requires asked { Contains (predicted frame.now model.now) rec }
{
    let answer = predict_row(told.alloc(), frame, model, coding, design, rec);
    match &answer {
        Ok(row) => tell_row(told, row),
        Err(fault) => tell_fault(told, fault),
    }
    drop(answer);
}

// What comes of each predicted record.
fn tell_records(told: &mut Told, frame: &Frame, model: &Formula, coding: Coding, design: &Design)
    requires short { All (λ t. length t.variables < 2 ^ 32) model.now.terms }
    requires held { All (IsHeld frame.now.names) (ariths_of model.now) }
    requires built { (weights : option text) × IsDesign frame.now model.now coding weights design.now }
    requires plain { length model.now.smooths ≡ 0 }
{
    let Ok(records) = predicted_records(told.alloc(), frame, model, design) else {
        return told.put("no memory");
    };
    if records.as_slice().is_empty() {
        told.put("none");
    }
    let mut mark = "";
    for rec in records.as_slice() {
        told.put(mark);
        tell_record(told, frame, model, coding, design, *rec);
        mark = " | ";
    }
}

// What comes of each predicted record of a formula without smooths, or why there is no design.
fn tell_predictions(
    told: &mut Told,
    frame: &Frame,
    model: &Formula,
    coding: Coding,
    weights: Option<&str>,
)
    requires short { All (λ t. length t.variables < 2 ^ 32) model.now.terms }
    requires held { All (IsHeld frame.now.names) (ariths_of model.now) }
{
    if !model.smooths.as_slice().is_empty() {
        return told.put("a smooth");
    }
    match build(told.alloc(), frame, model, coding, weights) {
        Ok(design) => {
            tell_records(told, frame, model, coding, &design);
            drop(design);
        }
        Err(fault) => {
            tell_fault(told, &fault);
            drop(fault);
        }
    }
}

fn tell_model(told: &mut Told, frame: &Frame, asked: Asked<'_>) {
    match model_of(told.alloc(), frame, asked.formula) {
        Some(model) => {
            tell_predictions(told, frame, &model, asked.coding, asked.weights);
            drop(model);
        }
        None => told.put("no formula"),
    }
}

/// What comes of each predicted record of a table.
pub(crate) fn tell(told: &mut Told, shared: &str, asked: &str) {
    match shared_frame(told.alloc(), shared) {
        Some(frame) => {
            tell_model(told, &frame, asked_in(asked));
            drop(frame);
        }
        None => told.put("no table"),
    }
}
