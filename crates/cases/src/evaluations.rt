//! Values of arithmetics. A code is told by its steps, as in `arithmetics`, and the answer is the value, or the number of the first
//! operation that overflows, its kind and its operands.

use crate::numbers::{number_of, numbers_of};
use crate::told::Told;
use formula_arith::{ArithFault, evaluate, is_short};
use frac_core::{Arith, ArithOp, Frac128, List, Text};
use std::alloc::Global;

fn step_of(word: &str) -> Option<ArithOp> {
    if let Some(text) = word.strip_prefix('=') {
        let value = number_of(text)?;
        return Some(ArithOp::Constant { value });
    }
    if let Some(text) = word.strip_prefix('^') {
        let exponent = text.parse::<u32>().ok()?;
        return Some(ArithOp::Power { exponent });
    }
    match word {
        "neg" => Some(ArithOp::Negate),
        "+" => Some(ArithOp::Add),
        "-" => Some(ArithOp::Sub),
        "*" => Some(ArithOp::Mul),
        _ => {
            let name = word.parse::<u32>().ok()?;
            Some(ArithOp::Load { name })
        }
    }
}

fn code_of(alloc: Global, steps: &str) -> Option<Vec<ArithOp>> {
    let mut code = Vec::new(alloc);
    for word in steps.split(' ') {
        code.push(step_of(word)?).ok()?;
    }
    Some(code)
}

// The arithmetic of a text, with the steps of its code.
fn arith_of(alloc: Global, text: &str, steps: &str) -> Option<Arith> {
    let text = Text::new(alloc, text).ok()?;
    let code = List::from(code_of(alloc, steps)?);
    Some(Arith {
        text,
        names: List::new(alloc),
        code,
    })
}

fn tell_value(told: &mut Told, arith: &Arith, values: &[Frac128]) {
    if !is_short(arith) {
        return told.put("too long");
    }
    match evaluate(told.alloc(), arith, values) {
        Ok(value) => told.put_number(value),
        Err(ArithFault::OutOfMemory) => told.put("no memory"),
        Err(ArithFault::Overflow { term, op }) => {
            told.put_named("", term);
            told.put(" ");
            told.put_op(op);
        }
    }
}

/// Tells the value of an arithmetic: its text, its code and the values of its names are asked.
pub(crate) fn tell(told: &mut Told, asked: &str) {
    let mut parts = asked.split(" ; ");
    let text = parts.next().unwrap_or("");
    let arith = arith_of(told.alloc(), text, parts.next().unwrap_or(""));
    let values = numbers_of(told.alloc(), parts.next().unwrap_or(""));
    match (&arith, &values) {
        (Some(arith), Some(values)) => tell_value(told, arith, values.as_slice()),
        _ => told.put("no arithmetic"),
    }
    drop(arith);
}
