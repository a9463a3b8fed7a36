//! Path problems, and the processes of these.
//!
//! Of the rows behind `=` are asked the first column that is penalised, the quantile, and for a process the range of lambda; behind ` at `
//! lambdas, at which the loss of the segment there is told.

use crate::losses::{problem_of, row_of, tell_loss, tell_problem};
use crate::numbers::{number_of, numbers_of};
use crate::solves::walked;
use crate::told::Told;
use frac_core::{Exact, Frac128, List};
use lambda_path::{PathFault, path_problem};
use loss_model::{Problem, Process, Segment};
use ratio::Ratio;
use std::alloc::Global;
use test_kit::{is_shaped, short_parts};

// What `path_problem` answers where its conditions are met.
fn path_of(
    alloc: Global,
    rows: &Problem<Frac128>,
    first: u32,
    tau: Frac128,
) -> Option<Result<Problem<Frac128>, PathFault>> {
    if !is_shaped(rows) {
        return None;
    }
    if first > rows.columns {
        return None;
    }
    Some(path_problem(alloc, rows, first, tau))
}

fn tell_fault(told: &mut Told, fault: &PathFault) {
    match fault {
        PathFault::OutOfMemory => told.put("no memory"),
        PathFault::TooManyRows => told.put("TooManyRows"),
        PathFault::Overflow(spill) => told.put_spill(*spill),
    }
}

// Both ends, the losses there, and the coefficients.
fn tell_segment(told: &mut Told, segment: &Segment) {
    for number in [&segment.lo, &segment.hi, &segment.loss_lo, &segment.loss_hi] {
        told.put_ratio(number);
        told.put(" ");
    }
    told.put_ratios(segment.vertex.coef.as_slice());
}

fn tell_segments(told: &mut Told, segments: &[Segment]) {
    let mut mark = "";
    for segment in segments {
        told.put(mark);
        tell_segment(told, segment);
        mark = "; ";
    }
}

fn holds(alloc: Global, segment: &Segment, lambda: &Ratio) -> bool {
    let low = segment.lo.compare(alloc, lambda);
    let high = lambda.compare(alloc, &segment.hi);
    low.is_ok_and(|it| it.is_le()) && high.is_ok_and(|it| it.is_le())
}

// Numbers of an answer of a small problem, in 128 bits.
fn narrowed(alloc: Global, values: &[Ratio]) -> Option<Vec<Frac128>> {
    let mut made = Vec::new(alloc);
    for value in values {
        let (n, d) = short_parts(value)?;
        made.push(Frac128::from_parts(n, d)?).ok()?;
    }
    Some(made)
}

// The loss at a lambda of the coefficients of the segment that holds it.
fn tell_least(told: &mut Told, path: &Problem<Frac128>, segments: &[Segment], lambda: Frac128) {
    told.put(" | ");
    let alloc = told.alloc();
    let Ok(wanted) = Ratio::widen(alloc, lambda) else {
        return told.put("no memory");
    };
    let found = segments
        .iter()
        .find(|segment| holds(alloc, segment, &wanted));
    match found.and_then(|segment| narrowed(alloc, segment.vertex.coef.as_slice())) {
        Some(coef) => tell_loss(told, path, coef.as_slice(), lambda),
        None => told.put("no segment"),
    }
}

fn tell_process(told: &mut Told, path: &Problem<Frac128>, process: &Process, lambdas: &[Frac128]) {
    let segments = process.segments.as_slice();
    tell_segments(told, segments);
    for lambda in lambdas {
        tell_least(told, path, segments, *lambda);
    }
}

fn tell_walk(
    told: &mut Told,
    path: &Problem<Frac128>,
    lo: Frac128,
    hi: Frac128,
    lambdas: &[Frac128],
) {
    let answer = walked(told.alloc(), path, (lo, hi), 100);
    match &answer {
        Some(Ok(process)) => tell_process(told, path, process, lambdas),
        Some(Err(_)) => told.put("stopped"),
        None => told.put("no path"),
    }
    drop(answer);
}

// The path problem, or its process where there are ends.
fn tell_path(told: &mut Told, path: &Problem<Frac128>, ends: &[Frac128], lambdas: &[Frac128]) {
    match ends {
        [lo, hi] => tell_walk(told, path, *lo, *hi, lambdas),
        _ => tell_problem(told, path),
    }
}

fn tell_asked(
    told: &mut Told,
    rows: &Problem<Frac128>,
    first: u32,
    numbers: &[Frac128],
    lambdas: &[Frac128],
) {
    let [tau, ends @ ..] = numbers else {
        return told.put("no quantile");
    };
    let answer = path_of(told.alloc(), rows, first, *tau);
    match &answer {
        Some(Ok(path)) => tell_path(told, path, ends, lambdas),
        Some(Err(fault)) => tell_fault(told, fault),
        None => told.put("no columns"),
    }
    drop(answer);
}

fn tell_of(told: &mut Told, rows: &Problem<Frac128>, asked: &str) {
    let (asked, lambdas) = asked.split_once(" at ").unwrap_or((asked, ""));
    let (first, numbers) = asked.split_once(' ').unwrap_or((asked, ""));
    let numbers = numbers_of(told.alloc(), numbers);
    let lambdas = numbers_of(told.alloc(), lambdas);
    match (first.parse::<u32>(), &numbers, &lambdas) {
        (Ok(first), Some(numbers), Some(lambdas)) => {
            tell_asked(told, rows, first, numbers.as_slice(), lambdas.as_slice());
        }
        _ => told.put("no number"),
    }
}

/// Tells a path problem or its process.
pub(crate) fn tell(told: &mut Told, shared: &str, asked: &str) {
    match problem_of(told.alloc(), shared) {
        Some(rows) => {
            tell_of(told, &rows, asked);
            drop(rows);
        }
        None => told.put("no problem"),
    }
}

// ---- the largest problems

// A problem of so many equal rows of one column.
fn many_rows(alloc: Global, count: u32) -> Option<Problem<Frac128>> {
    let mut rows = Vec::new(alloc);
    for _ in 0..count {
        rows.push(row_of(alloc, "0 0 1 1 -1 1")?).ok()?;
    }
    Some(Problem {
        columns: 1,
        rows: List::from(rows),
    })
}

fn tell_count(told: &mut Told, rows: &Problem<Frac128>, first: u32, tau: Frac128) {
    let answer = path_of(told.alloc(), rows, first, tau);
    match &answer {
        Some(Ok(path)) => told.put_count(path.rows.as_slice().len()),
        Some(Err(fault)) => tell_fault(told, fault),
        None => told.put("no columns"),
    }
    drop(answer);
}

/// Tells how many rows the path problem of so many equal rows has, by the first column that is penalised and the quantile.
pub(crate) fn tell_size(told: &mut Told, asked: &str) {
    let mut words = asked.split(' ');
    let count = words.next().unwrap_or("").parse::<u32>().unwrap_or(0);
    let first = words.next().unwrap_or("").parse::<u32>().unwrap_or(0);
    let tau = number_of(words.next().unwrap_or(""));
    let rows = many_rows(told.alloc(), count);
    match (&rows, tau) {
        (Some(rows), Some(tau)) => tell_count(told, rows, first, tau),
        _ => told.put("no problem"),
    }
    drop(rows);
}
