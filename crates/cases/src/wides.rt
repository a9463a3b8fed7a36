//! Products, sums and whole quotients of numbers of 128 bits, and of 64.
//!
//! `product` of two numbers is told by the low and the high bits of its size, behind its sign; `quotient` is of the product of the first two by the
//! third, `sum` of the products of the first and the third, and of the second and the fourth; `narrow` and `over` are products and quotients in
//! 64 bits.

use crate::numbers::wholes_of;
use crate::told::Told;
use wide_int::{Divisor, Wide, narrow_product, sum_of_products, whole_quotient};

fn tell_product(told: &mut Told, product: Wide) {
    let size = product.size;
    if product.negative && (size.low, size.high) != (0, 0) {
        told.put("-");
    }
    told.put_debug(&size.low);
    told.put(" ");
    told.put_debug(&size.high);
}

fn tell_found(told: &mut Told, found: Option<i128>) {
    match found {
        Some(number) => told.put_debug(&number),
        None => told.put("none"),
    }
}

// What is asked of two numbers.
fn tell_two(told: &mut Told, word: &str, a: i128, b: i128) {
    match word {
        "product" => tell_product(told, Wide::product(a, b)),
        "narrow" => tell_found(told, narrow_product(a, b)),
        "over" => tell_found(told, Divisor::of(b).narrow_quotient(a)),
        _ => told.put("no question"),
    }
}

fn tell_of(told: &mut Told, word: &str, numbers: &[i128]) {
    match numbers {
        [a, b] => tell_two(told, word, *a, *b),
        [a, b, divisor] => tell_found(told, whole_quotient(Wide::product(*a, *b), *divisor)),
        [a, b, c, d] => tell_found(told, sum_of_products(&[*a, *b], &[*c, *d])),
        _ => told.put("no question"),
    }
}

/// Tells what is asked of whole numbers.
pub(crate) fn tell(told: &mut Told, asked: &str) {
    let (word, rest) = asked.split_once(' ').unwrap_or((asked, ""));
    match wholes_of(told.alloc(), rest) {
        Some(numbers) => tell_of(told, word, numbers.as_slice()),
        None => told.put("no number"),
    }
}
