//! Formulas over the columns of a table, and what each says.
//!
//! A formula is told as its response, 1 or 0 for the intercept, its terms, its smooths and its offsets. A fault
//! is told as `Debug` writes it.

use crate::notation::text_of;
use crate::told::Told;
use formula_parser::{Formula, FormulaFault, Smooth, Term, parse};
use frac_core::{List, Text};
use std::alloc::Global;

fn tell_term(told: &mut Told, term: &Term) {
    let mut mark = " ";
    for variable in term.variables.as_slice() {
        told.put(mark);
        told.put(if variable.as_factor { "factor " } else { "" });
        told.put(variable.name.as_str());
        mark = ":";
    }
}

fn tell_smooth(told: &mut Told, smooth: &Smooth) {
    told.put(" qss ");
    told.put(smooth.name.as_str());
    told.put(",");
    told.put_number(smooth.lambda);
}

fn tell_formula(told: &mut Told, formula: &Formula) {
    told.put(formula.response.as_str());
    told.put(if formula.intercept { " 1" } else { " 0" });
    for term in formula.terms.as_slice() {
        tell_term(told, term);
    }
    for smooth in formula.smooths.as_slice() {
        tell_smooth(told, smooth);
    }
    for offset in formula.offsets.as_slice() {
        told.put(" offset ");
        told.put(offset.text.as_str());
    }
}

// The columns of a table, between commas.
fn columns_of(alloc: Global, header: &str) -> Option<List<Text>> {
    let mut names = List::new(alloc);
    for name in header.split(',') {
        names.add(Text::new(alloc, name).ok()?).ok()?;
    }
    Some(names)
}

// What a formula is over the columns of a header.
fn parsed(alloc: Global, header: &str, asked: &str) -> Option<Result<Formula, FormulaFault>> {
    let text = text_of(alloc, asked)?;
    if text.len() > 1 << 30 {
        return None;
    }
    let names = columns_of(alloc, header)?;
    Some(parse(alloc, text.as_str(), names.as_slice()))
}

/// What a formula says over these columns, or its fault.
pub(crate) fn tell(told: &mut Told, shared: &str, asked: &str) {
    let answer = parsed(told.alloc(), shared, asked);
    match &answer {
        Some(Ok(formula)) => tell_formula(told, formula),
        Some(Err(fault)) => told.put_debug(fault),
        None => told.put("no text"),
    }
    drop(answer);
}

/// How many terms it has, or its fault.
pub(crate) fn tell_count(told: &mut Told, shared: &str, asked: &str) {
    let answer = parsed(told.alloc(), shared, asked);
    match &answer {
        Some(Ok(formula)) => told.put_count(formula.terms.as_slice().len()),
        Some(Err(fault)) => told.put_debug(fault),
        None => told.put("no text"),
    }
    drop(answer);
}
