//! Solves at a quantile, and walks over a range of them.

use crate::numbers::{counts_of, numbers_in};
use crate::told::Told;
use crate::trails::{tell_rows, tell_stop, tell_trail, tell_vertex};
use br_pivot::{Solved, solve_at};
use frac_core::Exact;
use loss_model::{Problem, Process, Segment, Stop, Trail};
use ratio::Ratio;
use std::alloc::Global;
use tau_process::process;
use test_kit::{has_costs, is_ordered, is_shaped};

/// What `solve_at` answers where its conditions are met.
fn solved<F: Exact>(
    alloc: Global,
    problem: &Problem<F>,
    theta: F,
    limit: u32,
) -> Option<Result<Solved<F>, Stop<F>>> {
    if !is_shaped(problem) {
        return None;
    }
    if !has_costs(problem, theta) {
        return None;
    }
    Some(solve_at(alloc, problem, theta, limit))
}

/// What `process` answers where its conditions are met.
pub(crate) fn walked<F: Exact>(
    alloc: Global,
    problem: &Problem<F>,
    (lo, hi): (F, F),
    limit: u32,
) -> Option<Result<Process, Stop<F>>> {
    if !is_shaped(problem) {
        return None;
    }
    if !is_ordered(lo, hi) {
        return None;
    }
    if !has_costs(problem, lo) {
        return None;
    }
    if !has_costs(problem, hi) {
        return None;
    }
    Some(process(alloc, problem, lo, hi, limit))
}

// ---- answers

fn tell_count(told: &mut Told, trail: &Trail) {
    told.put_count(trail.steps.as_slice().len());
}

// How it is reached, its basis by position, its vertex, and the dual values of the basic rows; or how many pivots it took.
fn tell_solved<F: Exact>(told: &mut Told, word: &str, solved: &Solved<F>) {
    if word == "count" {
        return tell_count(told, &solved.trail);
    }
    tell_trail(told, &solved.trail);
    told.put("; basis");
    tell_rows(told, solved.basis.rows.as_slice());
    told.put("; ");
    tell_vertex(told, &solved.vertex);
    told.put("; ");
    told.put_ratios(solved.basic.as_slice());
}

fn tell_behind(told: &mut Told, mark: &str, value: &Ratio) {
    told.put(mark);
    told.put_ratio(value);
}

/// The ends of a segment, its vertex, and the dual values of the basic rows and the loss at both ends.
pub(crate) fn tell_segment(told: &mut Told, segment: &Segment) {
    tell_behind(told, "", &segment.lo);
    tell_behind(told, " ", &segment.hi);
    told.put(" ");
    tell_vertex(told, &segment.vertex);
    told.put(" from ");
    told.put_ratios(segment.basic_lo.as_slice());
    told.put(" to ");
    told.put_ratios(segment.basic_hi.as_slice());
    tell_behind(told, " loss ", &segment.loss_lo);
    tell_behind(told, " ", &segment.loss_hi);
}

// How it is reached, and its segments; or how many pivots it took.
fn tell_process(told: &mut Told, word: &str, process: &Process) {
    if word == "count" {
        return tell_count(told, &process.trail);
    }
    tell_trail(told, &process.trail);
    for segment in process.segments.as_slice() {
        told.put("; ");
        tell_segment(told, segment);
    }
}

// Why there is no answer; or how many pivots were made, and the limit.
fn tell_halt<F: Exact>(told: &mut Told, word: &str, stop: &Stop<F>) {
    match (word, stop) {
        ("count", Stop::PivotLimit { limit, trail }) => {
            tell_count(told, trail);
            told.put_named(" of ", *limit);
        }
        _ => tell_stop(told, stop),
    }
}

fn tell_solve<F: Exact>(told: &mut Told, problem: &Problem<F>, word: &str, theta: F, limit: u32) {
    let answer = solved(told.alloc(), problem, theta, limit);
    match &answer {
        Some(Ok(solved)) => tell_solved(told, word, solved),
        Some(Err(stop)) => tell_halt(told, word, stop),
        None => told.put("none"),
    }
    drop(answer);
}

fn tell_walk<F: Exact>(
    told: &mut Told,
    problem: &Problem<F>,
    word: &str,
    range: (F, F),
    limit: u32,
) {
    let answer = walked(told.alloc(), problem, range, limit);
    match &answer {
        Some(Ok(process)) => tell_process(told, word, process),
        Some(Err(stop)) => tell_halt(told, word, stop),
        None => told.put("none"),
    }
    drop(answer);
}

// ---- questions

fn tell_under<F: Exact>(
    told: &mut Told,
    problem: &Problem<F>,
    word: &str,
    quantiles: &[F],
    limit: u32,
) {
    match quantiles {
        [theta] => tell_solve(told, problem, word, *theta, limit),
        [lo, hi] => tell_walk(told, problem, word, (*lo, *hi), limit),
        _ => told.put("no quantile"),
    }
}

// The answers under some limits.
fn tell_each<F: Exact>(
    told: &mut Told,
    problem: &Problem<F>,
    word: &str,
    quantiles: &[F],
    limits: &[u32],
) {
    let mut mark = "";
    for limit in limits {
        told.put(mark);
        tell_under(told, problem, word, quantiles, *limit);
        mark = ", ";
    }
}

/// What is answered at a quantile, or over two, under each limit.
pub(crate) fn tell_limited<F: Exact>(
    told: &mut Told,
    problem: &Problem<F>,
    word: &str,
    rest: &str,
) {
    let (quantiles, limits) = rest.split_once(" limit ").unwrap_or((rest, ""));
    let quantiles = numbers_in::<F>(told.alloc(), quantiles);
    let limits = counts_of(told.alloc(), limits);
    match (&quantiles, &limits) {
        (Some(quantiles), Some(limits)) => {
            tell_each(told, problem, word, quantiles.as_slice(), limits.as_slice());
        }
        _ => told.put("no number"),
    }
}
