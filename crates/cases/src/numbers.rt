//! Numbers as they are written in a case.

use frac_core::{Exact, Frac128, read_number};
use std::alloc::Global;

/// The number of a text.
pub(crate) fn number_of(text: &str) -> Option<Frac128> {
    read_number::<Frac128>(text).ok()
}

// Adds the number of a word, and says whether it could.
fn add_number<F: Exact>(values: &mut Vec<F>, word: &str) -> bool {
    match read_number::<F>(word) {
        Ok(value) => values.push(value).is_ok(),
        Err(_) => false,
    }
}

/// The numbers of a text in one width, with blanks between.
pub(crate) fn numbers_in<F: Exact>(alloc: Global, text: &str) -> Option<Vec<F>> {
    let mut values = Vec::new(alloc);
    for word in text.split(' ') {
        if !word.is_empty() && !add_number(&mut values, word) {
            return None;
        }
    }
    Some(values)
}

pub(crate) fn numbers_of(alloc: Global, text: &str) -> Option<Vec<Frac128>> {
    numbers_in::<Frac128>(alloc, text)
}

/// Whole numbers with a sign.
pub(crate) fn wholes_of(alloc: Global, text: &str) -> Option<Vec<i128>> {
    let mut values = Vec::new(alloc);
    for word in text.split(' ') {
        if !word.is_empty() {
            values.push(word.parse::<i128>().ok()?).ok()?;
        }
    }
    Some(values)
}

/// Columns, rows or limits.
pub(crate) fn counts_of(alloc: Global, text: &str) -> Option<Vec<u32>> {
    let mut counts = Vec::new(alloc);
    for word in text.split(' ') {
        if !word.is_empty() {
            counts.push(word.parse::<u32>().ok()?).ok()?;
        }
    }
    Some(counts)
}
