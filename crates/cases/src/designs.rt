//! Formulas over a table, with a coding or weights, and the design of each, or why there is none.
//!
//! A design is told as the names of its columns, and each row as the number of its record, its weight where that
//! isn't 1, its response and its entries. Of an overflow its place, its kind and its operands are told.

ghost use Rattle.std.specs.Prelude.{◌<◌, ◌^◌, All, length};
ghost use Rattle.formula_parser.specs.Held.{IsHeld, ariths_of};

use crate::models::model_of;
use crate::told::{Told, shared_frame};
use contrasts::Coding;
use data_frame::Frame;
use design_matrix::{Design, DesignFault, DesignRow, build};
use formula_parser::Formula;
use frac_core::{Exact, Frac128};
use loss_model::Spill;

/// A formula, and the coding and the weights that are asked for beside it.
#[derive(Clone, Copy)]
pub(crate) struct Asked<'a> {
    pub formula: &'a str,
    pub coding: Coding,
    pub weights: Option<&'a str>,
}

fn coding_of(choice: &str) -> Coding {
    match choice {
        "contrasts sas" => Coding::Sas,
        "contrasts sum" => Coding::Sum,
        "contrasts helmert" => Coding::Helmert,
        _ => Coding::Treatment,
    }
}

/// What a text asks: a formula, and behind ` ? ` a coding or the name of the weights.
pub(crate) fn asked_in(text: &str) -> Asked<'_> {
    let (formula, choice) = text.split_once(" ? ").unwrap_or((text, ""));
    Asked {
        formula,
        coding: coding_of(choice),
        weights: choice.strip_prefix("weights "),
    }
}

// A weight that isn't 1.
fn tell_weight(told: &mut Told, weight: Frac128) {
    if weight != Frac128::one() {
        told.put("*");
        told.put_number(weight);
    }
}

fn tell_row(told: &mut Told, row: &DesignRow) {
    told.put_named(" | ", row.rec);
    tell_weight(told, row.weight);
    told.put(" ");
    told.put_number(row.y);
    told.put(": ");
    told.put_numbers(row.x.as_slice());
}

fn tell_design(told: &mut Told, design: &Design) {
    told.put_names(design.names.as_slice(), ",");
    for row in design.rows.as_slice() {
        tell_row(told, row);
    }
}

fn tell_spill(told: &mut Told, spill: &Spill<Frac128>) {
    told.put("Overflow ");
    told.put_debug(&spill.site.quantity);
    told.put_named(" ", spill.site.first);
    told.put_named(" ", spill.site.second);
    told.put_named(" ", spill.site.term);
    told.put(" ");
    told.put_debug(&spill.site.kind);
    told.put(" ");
    told.put_numbers(&[spill.left, spill.right]);
}

/// A fault by its name, and what it names behind it.
pub(crate) fn tell_fault(told: &mut Told, fault: &DesignFault) {
    match fault {
        DesignFault::UnknownWeights => told.put("UnknownWeights"),
        DesignFault::WeightNotNumeric => told.put("WeightNotNumeric"),
        DesignFault::NegativeWeight { rec } => told.put_named("NegativeWeight ", *rec),
        DesignFault::ResponseNotNumeric => told.put("ResponseNotNumeric"),
        DesignFault::NumberTooWide { rec, column } => {
            told.put_named("NumberTooWide ", *rec);
            told.put(" ");
            told.put(column.as_str());
        }
        DesignFault::NoRows => told.put("NoRows"),
        DesignFault::OneLevel { factor } => {
            told.put("OneLevel ");
            told.put(factor.as_str());
        }
        DesignFault::NoColumns => told.put("NoColumns"),
        DesignFault::Overflow(spill) => told.put_site(spill.site),
        DesignFault::UnknownLevel { rec, factor } => {
            told.put_named("UnknownLevel ", *rec);
            told.put(" ");
            told.put(factor.as_str());
        }
        DesignFault::ArithNotNumeric { name } => {
            told.put("ArithNotNumeric ");
            told.put(name.as_str());
        }
        _ => told.put("another fault"),
    }
}

fn tell_refused(told: &mut Told, fault: &DesignFault) {
    match fault {
        DesignFault::Overflow(spill) => tell_spill(told, spill),
        _ => tell_fault(told, fault),
    }
}

fn tell_built(told: &mut Told, frame: &Frame, model: &Formula, asked: Asked<'_>)
    requires short { All (λ t. length t.variables < 2 ^ 32) model.now.terms }
    requires held { All (IsHeld frame.now.names) (ariths_of model.now) }
{
    let built = build(told.alloc(), frame, model, asked.coding, asked.weights);
    match &built {
        Ok(design) => tell_design(told, design),
        Err(fault) => tell_refused(told, fault),
    }
    drop(built);
}

fn tell_model(told: &mut Told, frame: &Frame, asked: Asked<'_>) {
    match model_of(told.alloc(), frame, asked.formula) {
        Some(model) => {
            tell_built(told, frame, &model, asked);
            drop(model);
        }
        None => told.put("no formula"),
    }
}

/// The design of what is asked over a table, or why there is none.
pub(crate) fn tell(told: &mut Told, shared: &str, asked: &str) {
    match shared_frame(told.alloc(), shared) {
        Some(frame) => {
            tell_model(told, &frame, asked_in(asked));
            drop(frame);
        }
        None => told.put("no table"),
    }
}
