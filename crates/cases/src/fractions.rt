//! Fractions in both widths: what texts read as, what is made of whole numbers, how fractions compare, and what operations give.
//!
//! Where 64 bits answer as 128 do, it is told once; else what they answer stands behind ` | `.

use crate::notation::text_of;
use crate::told::Told;
use frac_core::{Exact, Frac64, Frac128, NumberFault, Op, narrow, read_number, widen};
use std::alloc::Global;

fn number_of<F: Exact>(text: &str) -> Option<F> {
    read_number::<F>(text).ok()
}

// The numerator and the denominator.
fn tell_pair<F: Exact>(told: &mut Told, value: F) {
    told.put_debug(&value.numerator());
    told.put(" ");
    told.put_debug(&value.denominator());
}

fn tell_reading<F: Exact>(told: &mut Told, text: &str) {
    match read_number::<F>(text) {
        Ok(value) => tell_pair(told, value),
        Err(NumberFault::NotANumber) => told.put("NotANumber"),
        Err(NumberFault::TooWide) => told.put("TooWide"),
    }
}

// A text with a million zeros in place of its mark.
fn with_zeros(alloc: Global, text: &str) -> Option<String> {
    let (before, behind) = text.split_once('~')?;
    let mut made = String::from_str(alloc, before).ok()?;
    for _ in 0..1_000_000 {
        made.push('0').ok()?;
    }
    made.push_str(behind).ok()?;
    Some(made)
}

fn tell_zeros<F: Exact>(told: &mut Told, text: &str) {
    match with_zeros(told.alloc(), text) {
        Some(text) => tell_reading::<F>(told, text.as_str()),
        None => told.put("no zeros"),
    }
}

// The fraction of two whole numbers.
fn made_of<F: Exact>(text: &str) -> Option<F> {
    let (numerator, denominator) = text.split_once(' ')?;
    let numerator = numerator.parse::<i128>().ok()?;
    let denominator = denominator.parse::<i128>().ok()?;
    F::from_parts(numerator, denominator)
}

// Its parts and its text.
fn tell_made<F: Exact>(told: &mut Told, text: &str) {
    match made_of::<F>(text) {
        Some(value) => {
            tell_pair(told, value);
            told.put(", ");
            told.put_fraction(value);
        }
        None => told.put("none"),
    }
}

// Both orders of two fractions.
fn tell_order<F: Exact>(told: &mut Told, left: F, right: F) {
    told.put_debug(&left.compare(right));
    told.put(" ");
    told.put_debug(&right.compare(left));
}

// The sign of a fraction, whether it is 0, and the fraction negated.
fn tell_sign<F: Exact>(told: &mut Told, value: F) {
    told.put_debug(&value.sign());
    told.put(" ");
    told.put_debug(&value.is_zero());
    told.put(" ");
    tell_pair(told, value.neg());
}

fn tell_outcome<F: Exact>(told: &mut Told, outcome: Result<F, Op<F>>) {
    match outcome {
        Ok(value) => tell_pair(told, value),
        Err(op) => told.put_op(op),
    }
}

fn tell_quotient<F: Exact>(told: &mut Told, left: F, right: F) {
    if right.is_zero() {
        return told.put("no quotient");
    }
    tell_outcome(told, left.try_div(right));
}

// What a word says of two fractions.
fn tell_two<F: Exact>(told: &mut Told, word: &str, left: F, right: F) {
    match word {
        "+" => tell_outcome(told, left.try_add(right)),
        "-" => tell_outcome(told, left.try_sub(right)),
        "*" => tell_outcome(told, left.try_mul(right)),
        "/" => tell_quotient(told, left, right),
        "and" => tell_order(told, left, right),
        _ => told.put("no operation"),
    }
}

fn tell_operation<F: Exact>(told: &mut Told, asked: &str) {
    let mut words = asked.split(' ');
    let left = number_of::<F>(words.next().unwrap_or(""));
    let word = words.next().unwrap_or("");
    let right = number_of::<F>(words.next().unwrap_or(""));
    match (left, right) {
        (Some(left), Some(right)) => tell_two(told, word, left, right),
        _ => told.put("no number"),
    }
}

fn tell_signs<F: Exact>(told: &mut Told, text: &str) {
    match number_of::<F>(text) {
        Some(value) => tell_sign(told, value),
        None => told.put("no number"),
    }
}

fn tell_in<F: Exact>(told: &mut Told, asked: &str) {
    let (word, rest) = asked.split_once(' ').unwrap_or((asked, ""));
    match word {
        "read" => tell_reading::<F>(told, rest),
        "zeros" => tell_zeros::<F>(told, rest),
        "parts" => tell_made::<F>(told, rest),
        "sign" => tell_signs::<F>(told, rest),
        "zero" => tell_pair(told, F::zero()),
        "one" => tell_pair(told, F::one()),
        _ => tell_operation::<F>(told, asked),
    }
}

fn tell_both(told: &mut Told, asked: &str) {
    let mut narrow = Told::new(told.alloc());
    tell_in::<Frac64>(&mut narrow, asked);
    tell_in::<Frac128>(told, asked);
    told.put_other(&narrow);
}

/// Tells what is asked in both widths.
pub(crate) fn tell(told: &mut Told, asked: &str) {
    match text_of(told.alloc(), asked) {
        Some(text) => tell_both(told, text.as_str()),
        None => told.put("no text"),
    }
}

/// A fraction in 64 bits, where it has them, and back in 128.
pub(crate) fn tell_narrow(told: &mut Told, asked: &str) {
    let Some(value) = number_of::<Frac128>(asked) else {
        return told.put("no number");
    };
    match narrow(value) {
        Some(made) => {
            tell_pair(told, made);
            told.put(", ");
            tell_pair(told, widen(made));
        }
        None => told.put("none"),
    }
}
