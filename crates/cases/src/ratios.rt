//! Products, differences and sums of fractions of any size, which are asked with each operation behind its operands. A fraction behind `=`
//! comes from 128 bits, and `sum` is of all numbers that are there.

use crate::numbers::number_of;
use crate::told::Told;
use ratio::{Ratio, sum};
use std::alloc::Global;

fn combined(alloc: Global, word: &str, left: &Ratio, right: &Ratio) -> Option<Ratio> {
    match word {
        "-" => left.sub(alloc, right).ok(),
        "*" => left.mul(alloc, right).ok(),
        _ => None,
    }
}

// Does an operation on the last two numbers.
fn combine(alloc: Global, numbers: &mut Vec<Ratio>, word: &str) -> Option<Ratio> {
    let right = numbers.pop()?;
    let left = numbers.pop()?;
    combined(alloc, word, &left, &right)
}

/// The number of a text, in any size.
pub(crate) fn widened(alloc: Global, text: &str) -> Option<Ratio> {
    Ratio::widen(alloc, number_of(text)?).ok()
}

// A numerator and a denominator.
fn fraction(alloc: Global, numerator: &str, denominator: &str) -> Option<Ratio> {
    let numerator = numerator.parse::<i128>().ok()?;
    let denominator = denominator.parse::<u128>().ok()?;
    if denominator == 0 {
        return None;
    }
    Ratio::fraction(alloc, numerator, denominator).ok()
}

// What a word adds to the numbers.
fn made(alloc: Global, numbers: &mut Vec<Ratio>, word: &str) -> Option<Ratio> {
    if let Some(text) = word.strip_prefix('=') {
        return widened(alloc, text);
    }
    if let Some((numerator, denominator)) = word.split_once('/') {
        return fraction(alloc, numerator, denominator);
    }
    match word {
        "zero" => Ratio::zero(alloc).ok(),
        "sum" => sum(alloc, numbers.as_slice()).ok(),
        _ => combine(alloc, numbers, word),
    }
}

// What is left where all words are done.
fn answer(alloc: Global, asked: &str) -> Option<Ratio> {
    let mut numbers = Vec::new(alloc);
    for word in asked.split(' ') {
        let number = made(alloc, &mut numbers, word)?;
        numbers.push(number).ok()?;
    }
    numbers.pop()
}

/// Tells what an expression comes to.
pub(crate) fn tell(told: &mut Told, asked: &str) {
    match answer(told.alloc(), asked) {
        Some(value) => told.put_ratio(&value),
        None => told.put("no number"),
    }
}
