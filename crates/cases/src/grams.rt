//! Weighted columns, Gram matrices and their inverses.
//!
//! A problem of 64 bits is asked in both widths: where it answers as in 128, it is told once; else its answer stands behind ` | `.

ghost use Rattle.std.specs.Prelude.{◌≡◌, ◌<◌, IsTrue, length};
ghost use Rattle.loss_model.specs.FullRank.{HasFullRank};
ghost use Rattle.loss_model.specs.Problem.{sample, IsWellShaped};

use crate::losses::problem_of;
use crate::nested::{tell_nested, tell_without};
use crate::numbers::numbers_of;
use crate::told::Told;
use basis_inverse::start;
use frac_core::{Exact, Frac64, Frac128};
use gram_inverse::{GramInverse, inner_product, weighted_column};
use gram_matrix::{gram_problem, scaled_column};
use loss_model::{Problem, Row, Short, narrow_problem};
use ratio::Ratio;
use std::alloc::Global;
use test_kit::{are_data, is_shaped};

/// An overflow, or that no memory was found.
pub(crate) fn tell_short<F: Exact>(told: &mut Told, short: &Short<F>) {
    match short {
        Short::Overflow(spill) => told.put_spill(*spill),
        Short::OutOfMemory => told.put("no memory"),
    }
}

fn tell_entries<F: Exact>(told: &mut Told, rows: &[Row<F>]) {
    for row in rows {
        told.put("; ");
        told.put_fractions(row.x.as_slice());
    }
}

fn tell_gram<F: Exact>(told: &mut Told, problem: &Problem<F>) {
    if !is_shaped(problem) {
        return told.put("no shape");
    }
    let made = gram_problem(told.alloc(), problem);
    match &made {
        Ok(gram) => {
            told.put_count(gram.columns as usize);
            tell_entries(told, gram.rows.as_slice());
        }
        Err(short) => tell_short(told, short),
    }
    drop(made);
}

fn tell_column<F: Exact>(told: &mut Told, problem: &Problem<F>, column: u32) {
    if !is_shaped(problem) {
        return told.put("no shape");
    }
    if column >= problem.columns {
        return told.put("no column");
    }
    match scaled_column(told.alloc(), problem, column) {
        Ok(entries) => told.put_fractions(entries.as_slice()),
        Err(short) => tell_short(told, &short),
    }
}

fn tell_wide_column(told: &mut Told, problem: &Problem<Frac128>, column: u32) {
    if !is_shaped(problem) {
        return told.put("no shape");
    }
    if column >= problem.columns {
        return told.put("no column");
    }
    match weighted_column(told.alloc(), problem, column) {
        Ok(entries) => told.put_ratios(entries.as_slice()),
        Err(_) => told.put("no memory"),
    }
}

/// Whether the columns are independent.
pub(crate) fn are_independent<F: Exact>(alloc: Global, full: &Problem<F>) -> bool
    requires { IsWellShaped full.now }
    ensures { IsTrue result → HasFullRank (sample F.value full.now) }
{
    match start(alloc, full) {
        Ok(started) => {
            drop(started);
            true
        }
        Err(stop) => {
            drop(stop);
            false
        }
    }
}

fn tell_inverse_row(told: &mut Told, inverse: &GramInverse, columns: u32, row: u32)
    requires square { length inverse.now ≡ columns }
    requires row { row < columns }
{
    told.put(if row == 0 { "" } else { "; " });
    for column in 0..columns {
        told.put(if column == 0 { "" } else { " " });
        told.put_ratio(inverse.entry(row, column));
    }
}

fn tell_inverse_of(told: &mut Told, inverse: &GramInverse, columns: u32)
    requires { length inverse.now ≡ columns }
{
    for row in 0..columns {
        tell_inverse_row(told, inverse, columns, row);
    }
}

fn tell_inverse(told: &mut Told, full: &Problem<Frac128>) {
    if !is_shaped(full) {
        return told.put("no shape");
    }
    if !are_data(full) {
        return told.put("other costs");
    }
    if !are_independent(told.alloc(), full) {
        return told.put("dependent");
    }
    match GramInverse::new(told.alloc(), full) {
        Ok(inverse) => tell_inverse_of(told, &inverse, full.columns),
        Err(_) => told.put("no memory"),
    }
}

/// Numbers in any size.
pub(crate) fn widened(alloc: Global, text: &str) -> Option<Vec<Ratio>> {
    let numbers = numbers_of(alloc, text)?;
    let mut made = Vec::new(alloc);
    for number in &numbers {
        made.push(Ratio::widen(alloc, *number).ok()?).ok()?;
    }
    Some(made)
}

fn product_of(alloc: Global, left: &[Ratio], right: &[Ratio]) -> Option<Ratio> {
    if left.len() != right.len() {
        return None;
    }
    inner_product(alloc, left, right).ok()
}

/// Tells the inner product of two lists.
pub(crate) fn tell_product(told: &mut Told, asked: &str) {
    let (left, right) = asked.split_once(" ; ").unwrap_or((asked, ""));
    let left = widened(told.alloc(), left).unwrap_or(Vec::new(told.alloc()));
    let right = widened(told.alloc(), right).unwrap_or(Vec::new(told.alloc()));
    match product_of(told.alloc(), left.as_slice(), right.as_slice()) {
        Some(product) => told.put_ratio(&product),
        None => told.put("no product"),
    }
}

// What is asked in both widths.
fn tell_in<F: Exact>(told: &mut Told, problem: &Problem<F>, word: &str, rest: &str) {
    match word {
        "gram" => tell_gram(told, problem),
        "column" => tell_column(told, problem, rest.parse::<u32>().unwrap_or(0)),
        "test" => tell_nested(told, problem, rest),
        _ => told.put("no question"),
    }
}

fn tell_both(told: &mut Told, problem: &Problem<Frac128>, word: &str, rest: &str) {
    tell_in::<Frac128>(told, problem, word, rest);
    if !is_shaped(problem) {
        return;
    }
    let narrow = narrow_problem(told.alloc(), problem);
    if let Ok(Some(narrow)) = &narrow {
        let mut other = Told::new(told.alloc());
        tell_in::<Frac64>(&mut other, narrow, word, rest);
        told.put_other(&other);
    }
    drop(narrow);
}

fn tell_of(told: &mut Told, problem: &Problem<Frac128>, asked: &str) {
    let (word, rest) = asked.split_once(' ').unwrap_or((asked, ""));
    match word {
        "inverse" => tell_inverse(told, problem),
        "wide" => tell_wide_column(told, problem, rest.parse::<u32>().unwrap_or(0)),
        "without" => tell_without(told, problem, rest),
        _ => tell_both(told, problem, word, rest),
    }
}

/// Tells what is asked of a problem.
pub(crate) fn tell(told: &mut Told, shared: &str, asked: &str) {
    match problem_of(told.alloc(), shared) {
        Some(problem) => {
            tell_of(told, &problem, asked);
            drop(problem);
        }
        None => told.put("no problem"),
    }
}
