//! Fractions, lists and texts that several tests make. A test has the memory that it needs, so that nothing that makes a value owes a `?`.

use frac_core::{Exact, List};
use std::alloc::Global;
use std::process::Abort;

/// A numerator and a denominator.
pub(crate) type Pair = (i128, i128);

pub(crate) fn fraction<F: Exact>(rt: &impl Abort, (n, d): Pair) -> F {
    F::from_parts(n, d).expect(rt, "a fraction in range")
}

/// Adds an item.
pub(crate) fn push<T: Drop>(rt: &impl Abort, items: &mut Vec<T>, item: T) {
    assert!(rt; items.push(item).is_ok());
}

/// The same items.
pub(crate) fn copied<T: Copy + Drop>(rt: &impl Abort, alloc: Global, items: &[T]) -> Vec<T> {
    Vec::from_slice(alloc, items).ok().expect(rt, "memory")
}

/// The fractions of pairs, in a list.
pub(crate) fn list<F: Exact>(rt: &impl Abort, alloc: Global, values: &[Pair]) -> List<F> {
    let mut made = Vec::new(alloc);
    for value in values {
        push(rt, &mut made, fraction(rt, *value));
    }
    List::from(made)
}

fn put(rt: &impl Abort, text: &mut String, piece: &str) {
    if text.push_str(piece).is_err() {
        panic!(rt; "no memory");
    }
}

/// Adds a record of numbers to a table.
pub(crate) fn put_record(rt: &impl Abort, alloc: Global, table: &mut String, numbers: &[u32]) {
    let mut mark = "";
    for number in numbers {
        let digits = number.to_string(alloc).ok().expect(rt, "memory");
        put(rt, table, mark);
        put(rt, table, digits.as_str());
        mark = ",";
    }
    put(rt, table, "\n");
}

/// The text of a piece alone.
pub(crate) fn text_of(rt: &impl Abort, alloc: Global, piece: &str) -> String {
    String::from_str(alloc, piece).ok().expect(rt, "memory")
}
