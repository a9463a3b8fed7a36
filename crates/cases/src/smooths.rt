//! Knots, columns and penalty rows of smooths, and their faults.

ghost use Rattle.std.specs.Prelude.{◌<◌, ◌^◌, All, length};
ghost use Rattle.formula_parser.specs.Held.{IsHeld, ariths_of};

use crate::models::model_of;
use crate::told::{Told, shared_frame};
use contrasts::Coding;
use data_frame::Frame;
use design_matrix::{Design, build};
use formula_parser::Formula;
use std::alloc::Global;
use tv_penalty::{PenaltyFault, PenaltyRow, Smoothing, knots, qss_columns, qss_rows};

fn tell_penalties(told: &mut Told, rows: &[PenaltyRow]) {
    for row in rows {
        told.put(" ");
        told.put_number(row.lambda);
        told.put(": ");
        told.put_numbers(row.x.as_slice());
    }
}

fn tell_smoothing(told: &mut Told, smoothing: &Smoothing) {
    told.put_names(smoothing.names.as_slice(), " ");
    for entries in smoothing.columns.as_slice() {
        told.put("; ");
        told.put_numbers(entries.as_slice());
    }
    told.put(" |");
    tell_penalties(told, smoothing.rows.as_slice());
}

fn tell_fault(told: &mut Told, fault: &PenaltyFault) {
    match fault {
        PenaltyFault::OutOfMemory => told.put("OutOfMemory"),
        PenaltyFault::NotNumeric { name } => {
            told.put("NotNumeric ");
            told.put(name.as_str());
        }
        PenaltyFault::TooFewKnots { name } => {
            told.put("TooFewKnots ");
            told.put(name.as_str());
        }
        PenaltyFault::Overflow(spill) => told.put_site(spill.site),
        PenaltyFault::TooManyColumns => told.put("TooManyColumns"),
    }
}

/// A table, a formula over it, and its design without smooths.
#[derive(Drop)]
struct Input {
    frame: Frame,
    model: Formula,
    design: Design,
}

fn design_of(alloc: Global, frame: &Frame, model: &Formula) -> Option<Design>
    requires short { All (λ t. length t.variables < 2 ^ 32) model.now.terms }
    requires held { All (IsHeld frame.now.names) (ariths_of model.now) }
{
    build(alloc, frame, model, Coding::Treatment, None).ok()
}

fn input_of(alloc: Global, table: &str, formula: &str) -> Option<Input> {
    let frame = shared_frame(alloc, table)?;
    let model = model_of(alloc, &frame, formula)?;
    let design = design_of(alloc, &frame, &model)?;
    Some(Input {
        frame,
        model,
        design,
    })
}

fn tell_added(told: &mut Told, added: Result<Smoothing, PenaltyFault>) {
    match &added {
        Ok(smoothing) => tell_smoothing(told, smoothing),
        Err(fault) => tell_fault(told, fault),
    }
    drop(added);
}

/// What the smooths of a formula add, with penalty rows.
pub(crate) fn tell(told: &mut Told, shared: &str, asked: &str) {
    let Some(input) = input_of(told.alloc(), shared, asked) else {
        return told.put("no design");
    };
    let added = qss_rows(told.alloc(), &input.frame, &input.design, &input.model);
    drop(input);
    tell_added(told, added);
}

/// And without.
pub(crate) fn tell_columns(told: &mut Told, shared: &str, asked: &str) {
    let Some(input) = input_of(told.alloc(), shared, asked) else {
        return told.put("no design");
    };
    let added = qss_columns(told.alloc(), &input.frame, &input.design, &input.model);
    drop(input);
    tell_added(told, added);
}

/// How many penalty rows they have.
pub(crate) fn tell_size(told: &mut Told, shared: &str, asked: &str) {
    let Some(input) = input_of(told.alloc(), shared, asked) else {
        return told.put("no design");
    };
    let added = qss_rows(told.alloc(), &input.frame, &input.design, &input.model);
    drop(input);
    match &added {
        Ok(smoothing) => told.put_count(smoothing.rows.as_slice().len()),
        Err(fault) => tell_fault(told, fault),
    }
    drop(added);
}

// The knots of the first smooth.
fn tell_first(told: &mut Told, input: &Input) {
    let Some(smooth) = input.model.smooths.as_slice().first() else {
        return told.put("no smooth");
    };
    let answer = knots(told.alloc(), &input.frame, &input.design, smooth);
    match &answer {
        Ok(knots) => told.put_numbers(knots.as_slice()),
        Err(fault) => tell_fault(told, fault),
    }
    drop(answer);
}

/// The knots of the first smooth of a formula.
pub(crate) fn tell_knots(told: &mut Told, shared: &str, asked: &str) {
    match input_of(told.alloc(), shared, asked) {
        Some(input) => {
            tell_first(told, &input);
            drop(input);
        }
        None => told.put("no design"),
    }
}
