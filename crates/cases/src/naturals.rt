//! Sums, products, quotients, rests and common divisors of natural numbers of any size, which are asked with each operation behind its
//! operands. What is left is told by its text, and behind ` = ` as it is in 128 bits, where it has these.

use crate::told::Told;
use natural::Natural;
use std::alloc::Global;

// The quotient, or the rest.
fn divided(alloc: Global, left: &Natural, right: &Natural, is_rest: bool) -> Option<Natural> {
    if right.is_zero() {
        return None;
    }
    let (quotient, rest) = left.div_rem(alloc, right).ok()?;
    Some(if is_rest { rest } else { quotient })
}

fn combined(alloc: Global, word: &str, left: &Natural, right: &Natural) -> Option<Natural> {
    match word {
        "+" => left.add(alloc, right).ok(),
        "*" => left.mul(alloc, right).ok(),
        "/" => divided(alloc, left, right, false),
        "%" => divided(alloc, left, right, true),
        "gcd" => left.gcd(alloc, right).ok(),
        _ => None,
    }
}

// Does an operation on the last two numbers.
fn combine(alloc: Global, numbers: &mut Vec<Natural>, word: &str) -> Option<()> {
    let right = numbers.pop()?;
    let left = numbers.pop()?;
    let made = combined(alloc, word, &left, &right)?;
    numbers.push(made).ok()
}

fn step(alloc: Global, numbers: &mut Vec<Natural>, word: &str) -> Option<()> {
    match word.parse::<u128>() {
        Ok(number) => numbers.push(Natural::new(alloc, number).ok()?).ok(),
        Err(_) => combine(alloc, numbers, word),
    }
}

// What is left where all words are done.
fn answer(alloc: Global, asked: &str) -> Option<Natural> {
    let mut numbers = Vec::new(alloc);
    for word in asked.split(' ') {
        step(alloc, &mut numbers, word)?;
    }
    numbers.pop()
}

fn decimal(alloc: Global, value: &Natural) -> Option<Vec<u8>> {
    let mut text = Vec::new(alloc);
    value.write_decimal(alloc, &mut text).ok()?;
    Some(text)
}

fn tell_number(told: &mut Told, value: &Natural) {
    match decimal(told.alloc(), value) {
        Some(text) => told.put_bytes(text.as_slice()),
        None => told.put("no memory"),
    }
    if let Some(number) = value.narrow() {
        told.put(" = ");
        told.put_debug(&number);
    }
}

/// Tells what an expression comes to.
pub(crate) fn tell(told: &mut Told, asked: &str) {
    match answer(told.alloc(), asked) {
        Some(value) => tell_number(told, &value),
        None => told.put("no number"),
    }
}
