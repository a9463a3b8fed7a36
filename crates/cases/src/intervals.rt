//! Rank intervals, tests of columns, and what each stops for.

ghost use Rattle.std.specs.Prelude.{◌≡◌, ◌<◌, IfSome, length};
ghost use Rattle.rank_inversion.specs.GramStops.{IsInverted};

use crate::told::Told;
use crate::trails::{tell_rows, tell_stop, tell_trail, tell_vertex};
use basis_inverse::{Inverse, start};
use frac_core::{Exact, Frac64, Frac128, read_number};
use loss_model::{Beyond, Bound, End, Interval, Problem, Stop};
use rank_inversion::{
    Asked, GramInverse, RankTest, gram_inverse, interval, interval_by_parts, interval_in_wholes,
    rank_test,
};
use ratio::Ratio;
use std::alloc::Global;
use test_kit::{are_data, is_less, is_ordered, is_shaped};

// ---- what is told

fn tell_bound(told: &mut Told, bound: &Bound<Ratio>) {
    match bound {
        Bound::Finite(value) => told.put_ratio(value),
        Bound::Infinite => told.put("none"),
    }
}

fn tell_end(told: &mut Told, end: &End) {
    told.put("; ");
    tell_bound(told, &end.bound);
    told.put(" ");
    tell_vertex(told, &end.vertex);
    told.put(" inside ");
    told.put_ratios(end.inside.as_slice());
    let (name, values) = match &end.beyond {
        Beyond::Outside(outside) => (" outside ", outside),
        Beyond::Ray(ray) => (" ray ", ray),
    };
    told.put(name);
    told.put_ratios(values.as_slice());
}

fn tell_interval(told: &mut Told, found: &Interval) {
    told.put_named("", found.column);
    told.put(" ");
    told.put_ratio(&found.tau);
    told.put(" ");
    told.put_ratio(&found.crit);
    told.put("; ");
    match &found.projection {
        Some(factors) => told.put_ratios(factors.as_slice()),
        None => told.put("none"),
    }
    told.put("; ");
    tell_trail(told, &found.trail);
    tell_end(told, &found.low);
    tell_end(told, &found.high);
}

// The value of an end, and the rows of its vertex.
fn tell_place(told: &mut Told, end: &End) {
    tell_bound(told, &end.bound);
    told.put(" by");
    tell_rows(told, end.vertex.basis.rows.as_slice());
}

// An interval as a word asks for it.
fn tell_found(told: &mut Told, word: &str, found: &Interval) {
    match word {
        "interval" => tell_interval(told, found),
        _ => {
            tell_place(told, &found.low);
            told.put("; ");
            tell_place(told, &found.high);
        }
    }
}

// ---- intervals

type Answer<F> = Option<Result<Interval, Stop<F>>>;

fn tell_answer<F: Exact>(told: &mut Told, word: &str, answer: &Answer<F>) {
    match answer {
        Some(Ok(found)) => tell_found(told, word, found),
        Some(Err(stop)) => tell_stop(told, stop),
        None => told.put("none"),
    }
}

// A quantile and a critical value.
fn values_of<F: Exact>(tau: &str, crit: &str) -> Option<(F, F)> {
    let tau = read_number::<F>(tau).ok()?;
    let crit = read_number::<F>(crit).ok()?;
    Some((tau, crit))
}

// A column, a quantile and a critical value, and the limit of pivots.
fn asked_in<F: Exact>(text: &str) -> Option<(Asked<F>, u32)> {
    let (column, rest) = text.split_once(' ')?;
    let (tau, rest) = rest.split_once(' ')?;
    let (crit, limit) = rest.split_once(' ').unwrap_or((rest, "0"));
    let (tau, crit) = values_of::<F>(tau, crit)?;
    let column = column.parse::<u32>().ok()?;
    let limit = limit.parse::<u32>().ok()?;
    Some((Asked { column, tau, crit }, limit))
}

// What is answered where its conditions are met: by parts, whose walks go in fractions, in whole numbers alone, or by the first that can.
fn answer_to<F: Exact>(alloc: Global, problem: &Problem<F>, word: &str, text: &str) -> Answer<F> {
    let (asked, limit) = asked_in(text)?;
    if !is_shaped(problem) {
        return None;
    }
    if asked.column >= problem.columns {
        return None;
    }
    if !is_less(F::zero(), asked.tau) {
        return None;
    }
    if !is_less(asked.tau, F::one()) {
        return None;
    }
    if !is_ordered(F::zero(), asked.crit) {
        return None;
    }
    if !are_data(problem) {
        return None;
    }
    match word {
        "parts" => Some(interval_by_parts(alloc, problem, asked, limit)),
        "wholes" => Some(Ok(interval_in_wholes(alloc, problem, asked, limit)?)),
        _ => {
            let Asked { column, tau, crit } = asked;
            Some(interval(alloc, problem, column, tau, crit, limit))
        }
    }
}

/// The interval that is asked for, or why there is none.
pub(crate) fn tell_asked<F: Exact>(told: &mut Told, problem: &Problem<F>, word: &str, text: &str) {
    let answer = answer_to(told.alloc(), problem, word, text);
    tell_answer(told, word, &answer);
    drop(answer);
}

// ---- the inverse of the Gram matrix, and the test of a column

fn gram_of<F: Exact>(alloc: Global, problem: &Problem<F>) -> Option<GramInverse<F>>
    ensures { IfSome result (IsInverted F.value problem.now) }
{
    if !is_shaped(problem) {
        return None;
    }
    if !are_data(problem) {
        return None;
    }
    gram_inverse(alloc, problem).ok()
}

fn tell_column<F: Exact>(told: &mut Told, inverse: &Inverse<F>, columns: u32, column: u32)
    requires square { length inverse.now.columns ≡ columns }
    requires column { column < columns }
{
    told.put(";");
    for position in 0..columns {
        told.put(" ");
        told.put_fraction(inverse.entry(column, position));
    }
}

/// The rows of the start and the inverse of the Gram matrix, row by row.
pub(crate) fn tell_gram<F: Exact>(told: &mut Told, problem: &Problem<F>) {
    let Some(gram) = gram_of(told.alloc(), problem) else {
        return told.put("no inverse");
    };
    told.put("rows");
    tell_rows(told, gram.basis.rows.as_slice());
    for column in 0..problem.columns {
        tell_column(told, &gram.inverse, problem.columns, column);
    }
    drop(gram);
}

fn test_of<F: Exact>(alloc: Global, problem: &Problem<F>, text: &str) -> Option<RankTest<F>> {
    let (asked, _) = asked_in(text)?;
    if asked.column >= problem.columns {
        return None;
    }
    let gram = gram_of(alloc, problem)?;
    rank_test(alloc, problem, &gram, asked).ok()
}

/// The factors and the bound of the test of a column.
pub(crate) fn tell_test<F: Exact>(told: &mut Told, problem: &Problem<F>, text: &str) {
    match test_of(told.alloc(), problem, text) {
        Some(test) => {
            told.put_ratios(test.factors.as_slice());
            told.put("; ");
            told.put_fraction(test.bound);
        }
        None => told.put("no test"),
    }
}

/// Whether the greedy start overflows.
pub(crate) fn tell_beginning<F: Exact>(told: &mut Told, problem: &Problem<F>) {
    if !is_shaped(problem) {
        return told.put("no shape");
    }
    let answer = start(told.alloc(), problem);
    told.put(match &answer {
        Ok(_) => "started",
        Err(Stop::Overflow { .. }) => "overflow",
        Err(_) => "stopped",
    });
    drop(answer);
}
