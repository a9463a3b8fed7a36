//! Formulas, and what each reads as.
//!
//! A reading is told as the response, 1 or 0 for the intercept, the steps, and the smooths: `()` is
//! the empty list, and an operator stands with its offset. A fault is told as `Debug` writes it.

use crate::notation::text_of;
use crate::told::Told;
use formula_grammar::{
    ArithPart, ArithStep, ReadFault, Reading, SmoothPart, Span, Step, read, tokens_of,
};
use std::alloc::Global;

fn piece_of(text: &str, span: Span) -> Option<&str> {
    let start = span.start as usize;
    let bytes = text.as_bytes().get(start..start + span.len as usize)?;
    std::str::from_utf8(bytes).ok()
}

fn tell_span(told: &mut Told, text: &str, span: Span) {
    told.put(piece_of(text, span).unwrap_or("a span cuts the text"));
}

fn tell_arith_step(told: &mut Told, text: &str, step: ArithStep) {
    match step {
        ArithStep::Load { name } => tell_span(told, text, name),
        ArithStep::Constant { number } => told.put_number(number.value()),
        ArithStep::Negate => told.put("neg"),
        ArithStep::Add => told.put("+"),
        ArithStep::Sub => told.put("-"),
        ArithStep::Mul => told.put("*"),
        ArithStep::Power { exponent } => told.put_named("^", exponent),
    }
}

// The steps of an arithmetic.
fn tell_part(told: &mut Told, text: &str, part: &ArithPart) {
    told.put("I[");
    for step in part.steps.as_slice() {
        told.put(" ");
        tell_arith_step(told, text, *step);
    }
    told.put(" ]");
}

fn tell_step(told: &mut Told, text: &str, step: &Step) {
    match step {
        Step::Load { name, as_factor } => {
            told.put(if *as_factor { "factor:" } else { "" });
            tell_span(told, text, *name);
        }
        Step::LoadArith { part } => tell_part(told, text, part),
        Step::LoadAll => told.put("."),
        Step::Nothing => told.put("()"),
        Step::Add { at } => told.put_named("+", *at),
        Step::Remove { at } => told.put_named("-", *at),
        Step::Multiply { at } => told.put_named("*", *at),
        Step::Interact { at } => told.put_named(":", *at),
        Step::Raise { exponent, at } => {
            told.put_named("^", *exponent);
            told.put_named("@", *at);
        }
    }
}

fn tell_smooth(told: &mut Told, text: &str, smooth: SmoothPart) {
    told.put(" qss:");
    tell_span(told, text, smooth.name);
    told.put(",");
    told.put_number(smooth.lambda.value());
}

fn tell_reading(told: &mut Told, text: &str, reading: &Reading) {
    tell_span(told, text, reading.response);
    told.put(if reading.intercept { " 1" } else { " 0" });
    for step in reading.steps.as_slice() {
        told.put(" ");
        tell_step(told, text, step);
    }
    for smooth in reading.smooths.as_slice() {
        tell_smooth(told, text, *smooth);
    }
    for offset in reading.offsets.as_slice() {
        told.put(" offset:");
        tell_part(told, text, offset);
    }
}

fn reading_of(alloc: Global, text: &str) -> Option<Result<Reading, ReadFault>> {
    if text.len() > 1 << 30 {
        return None;
    }
    match tokens_of(alloc, text) {
        Ok(tokens) => Some(read(alloc, tokens.as_slice())),
        Err(_) => None,
    }
}

fn tell_answer(told: &mut Told, text: &str) {
    let answer = reading_of(told.alloc(), text);
    match &answer {
        Some(Ok(reading)) => tell_reading(told, text, reading),
        Some(Err(fault)) => told.put_debug(fault),
        None => told.put("no tokens"),
    }
    drop(answer);
}

/// What a formula reads as, or its fault.
pub(crate) fn tell(told: &mut Told, asked: &str) {
    match text_of(told.alloc(), asked) {
        Some(text) => tell_answer(told, text.as_str()),
        None => told.put("no text"),
    }
}
