//! Losses of problems, operations at a site, and problems in 64 bits.
//!
//! A problem is told by its rows with `;` between: the response, the costs above and below the fit, each constant and then by the quantile, and
//! the entries.

use crate::numbers::{number_of, numbers_of};
use crate::told::Told;
use frac_core::{Exact, Frac128, List};
use loss_model::{
    Problem, Quantity, Row, Site, Spill, loss_at, minus_at, narrow_problem, over_at, plus_at,
    times_at,
};
use std::alloc::Global;
use test_kit::is_shaped;

/// The row of a text.
pub(crate) fn row_of(alloc: Global, text: &str) -> Option<Row<Frac128>> {
    let numbers = numbers_of(alloc, text)?;
    let [y, up0, up1, down0, down1, entries @ ..] = numbers.as_slice() else {
        return None;
    };
    let entries = Vec::from_slice(alloc, entries).ok()?;
    Some(Row {
        x: List::from(entries),
        y: *y,
        up0: *up0,
        up1: *up1,
        down0: *down0,
        down1: *down1,
    })
}

fn rows_of(alloc: Global, text: &str) -> Option<Vec<Row<Frac128>>> {
    let mut rows = Vec::new(alloc);
    for part in text.split(';') {
        rows.push(row_of(alloc, part)?).ok()?;
    }
    Some(rows)
}

/// The problem of a text.
pub(crate) fn problem_of(alloc: Global, text: &str) -> Option<Problem<Frac128>> {
    let rows = rows_of(alloc, text)?;
    let columns = rows.as_slice().first()?.x.as_slice().len();
    Some(Problem {
        columns: u32::try_from(columns).ok()?,
        rows: List::from(rows),
    })
}

fn tell_outcome(told: &mut Told, outcome: Result<Frac128, Spill<Frac128>>) {
    match outcome {
        Ok(value) => told.put_number(value),
        Err(spill) => told.put_spill(spill),
    }
}

/// Tells the loss of coefficients at a quantile.
pub(crate) fn tell_loss(
    told: &mut Told,
    problem: &Problem<Frac128>,
    coef: &[Frac128],
    theta: Frac128,
) {
    if !is_shaped(problem) {
        return told.put("no shape");
    }
    if coef.len() != problem.columns as usize {
        return told.put("other columns");
    }
    tell_outcome(told, loss_at(problem, coef, theta));
}

// The loss where a text has the coefficients, and behind `at` the quantile.
fn tell_at(told: &mut Told, problem: &Problem<Frac128>, asked: &str) {
    let (coef, theta) = asked.split_once(" at ").unwrap_or((asked, ""));
    let coef = numbers_of(told.alloc(), coef);
    match (&coef, number_of(theta)) {
        (Some(coef), Some(theta)) => tell_loss(told, problem, coef.as_slice(), theta),
        _ => told.put("no number"),
    }
}

/// Tells the loss of coefficients in a problem, or what overflows.
pub(crate) fn tell(told: &mut Told, shared: &str, asked: &str) {
    match problem_of(told.alloc(), shared) {
        Some(problem) => {
            tell_at(told, &problem, asked);
            drop(problem);
        }
        None => told.put("no problem"),
    }
}

// ---- operations at a site

fn tell_quotient(told: &mut Told, site: Site, left: Frac128, right: Frac128) {
    if right.is_zero() {
        return told.put("no quotient");
    }
    tell_outcome(told, over_at(site, left, right));
}

fn tell_at_site(told: &mut Told, word: &str, left: Frac128, right: Frac128) {
    let site = Site::new(Quantity::Score, 4, 1, 2);
    match word {
        "+" => tell_outcome(told, plus_at(site, left, right)),
        "-" => tell_outcome(told, minus_at(site, left, right)),
        "*" => tell_outcome(told, times_at(site, left, right)),
        "/" => tell_quotient(told, site, left, right),
        _ => told.put("no operation"),
    }
}

/// Tells what an operation gives at the third term of score 4 1, or that it overflows there.
pub(crate) fn tell_operation(told: &mut Told, asked: &str) {
    let mut words = asked.split(' ');
    let left = number_of(words.next().unwrap_or(""));
    let word = words.next().unwrap_or("");
    let right = number_of(words.next().unwrap_or(""));
    match (left, right) {
        (Some(left), Some(right)) => tell_at_site(told, word, left, right),
        _ => told.put("no number"),
    }
}

// ---- problems in 64 bits

// A number and a blank.
fn tell_number<F: Exact>(told: &mut Told, value: F) {
    told.put_fraction(value);
    told.put(" ");
}

fn tell_row<F: Exact>(told: &mut Told, row: &Row<F>) {
    tell_number(told, row.y);
    tell_number(told, row.up0);
    tell_number(told, row.up1);
    tell_number(told, row.down0);
    tell_number(told, row.down1);
    told.put_fractions(row.x.as_slice());
}

/// How many columns a problem has, and its rows.
pub(crate) fn tell_problem<F: Exact>(told: &mut Told, problem: &Problem<F>) {
    told.put_named("", problem.columns);
    for row in problem.rows.as_slice() {
        told.put("; ");
        tell_row(told, row);
    }
}

fn tell_narrow(told: &mut Told, problem: &Problem<Frac128>) {
    if !is_shaped(problem) {
        return told.put("no shape");
    }
    let made = narrow_problem(told.alloc(), problem);
    match &made {
        Ok(Some(narrow)) => tell_problem(told, narrow),
        Ok(None) => told.put("none"),
        Err(_) => told.put("no memory"),
    }
    drop(made);
}

/// Tells a problem in 64 bits, if it has them.
pub(crate) fn tell_narrowed(told: &mut Told, asked: &str) {
    match problem_of(told.alloc(), asked) {
        Some(problem) => {
            tell_narrow(told, &problem);
            drop(problem);
        }
        None => told.put("no problem"),
    }
}
