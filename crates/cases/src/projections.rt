//! Factors that project the first column on the others, by the rows of a Gram matrix in whole numbers, with `;` between, and the squared length of
//! what they leave.

ghost use Rattle.std.specs.Prelude.{◌≡◌, ◌<◌, ◌≤◌, length, IsTrue};
ghost use Rattle.gram_check.specs.Sizes.{IsSquare};

use crate::numbers::wholes_of;
use crate::told::Told;
use frac_core::List;
use gram_check::{Factors, factors_of, length_of};
use natural::Natural;
use ratio::{Integer, Ratio};
use std::alloc::Global;

fn row_of(alloc: Global, text: &str) -> Option<List<Integer>> {
    let mut row = List::new(alloc);
    for number in wholes_of(alloc, text)? {
        row.add(Integer::new(alloc, number).ok()?).ok()?;
    }
    Some(row)
}

fn gram_of(alloc: Global, text: &str) -> Option<Vec<List<Integer>>> {
    let mut rows = Vec::new(alloc);
    for part in text.split(';') {
        rows.push(row_of(alloc, part)?).ok()?;
    }
    Some(rows)
}

fn is_square(gram: &[List<Integer>]) -> bool
    ensures { IsTrue result → IsSquare (length gram.now) gram.now }
{
    let size = gram.len();
    gram.iter().all(|row| row.as_slice().len() == size)
}

fn tell_share(told: &mut Told, number: &Integer, under: &Natural)
    requires { 1 ≤ under.now }
{
    match Ratio::new(told.alloc(), number, under) {
        Ok(share) => told.put_ratio(&share),
        Err(_) => told.put("no memory"),
    }
}

fn tell_factors(told: &mut Told, factors: &Factors)
    requires { 1 ≤ factors.now.denominator }
{
    for number in factors.numerators.as_slice() {
        tell_share(told, number, &factors.denominator);
        told.put(" ");
    }
}

fn tell_projection(told: &mut Told, gram: &[List<Integer>])
    requires square { IsSquare (length gram.now) gram.now }
    requires some { 0 < length gram.now }
{
    let factors = match factors_of(told.alloc(), gram, 0) {
        Ok(factors) => factors,
        Err(obstacle) => return told.put_debug(&obstacle),
    };
    tell_factors(told, &factors);
    told.put("leave ");
    match length_of(told.alloc(), gram, 0, &factors) {
        Ok(left) => tell_share(told, &left, &factors.denominator),
        Err(_) => told.put("no memory"),
    }
}

/// Tells the factors of the first column, and what they leave of it.
pub(crate) fn tell(told: &mut Told, asked: &str) {
    let gram = gram_of(told.alloc(), asked).unwrap_or(Vec::new(told.alloc()));
    let rows = gram.as_slice();
    if rows.is_empty() || !is_square(rows) {
        return told.put("no square");
    }
    tell_projection(told, rows);
}
