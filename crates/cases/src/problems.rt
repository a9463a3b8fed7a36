//! What is asked of the solver and of rank intervals: a problem, in both widths.
//!
//! A problem of 64 bits is asked in both: where the answers are the same, it is told once; else the other stands behind ` | `. Behind `wide` all is asked in 128 bits alone, and behind `narrow` in 64.

use crate::intervals::{tell_asked, tell_beginning, tell_gram, tell_test};
use crate::losses::problem_of;
use crate::solves::tell_limited;
use crate::starts::{tell_begun, tell_exchanged, tell_standing, tell_stay};
use crate::told::Told;
use frac_core::{Exact, Frac64, Frac128};
use loss_model::{Problem, narrow_problem};
use test_kit::is_shaped;

fn tell_in<F: Exact>(told: &mut Told, problem: &Problem<F>, asked: &str) {
    let (word, rest) = asked.split_once(' ').unwrap_or((asked, ""));
    match word {
        "start" => tell_begun(told, problem),
        "exchange" => tell_exchanged(told, problem, rest),
        "standing" => tell_standing(told, problem),
        "begin" => tell_beginning(told, problem),
        "gram" => tell_gram(told, problem),
        "test" => tell_test(told, problem, rest),
        "interval" | "ends" | "parts" | "wholes" => tell_asked(told, problem, word, rest),
        _ => tell_limited(told, problem, word, rest),
    }
}

// What is answered in both widths, or in 64 bits alone.
fn tell_both(told: &mut Told, problem: &Problem<Frac128>, narrow: &Problem<Frac64>, asked: &str) {
    if let Some(asked) = asked.strip_prefix("narrow ") {
        return tell_in(told, narrow, asked);
    }
    tell_in(told, problem, asked);
    let mut other = Told::new(told.alloc());
    tell_in(&mut other, narrow, asked);
    told.put_other(&other);
}

fn tell_of(told: &mut Told, problem: &Problem<Frac128>, asked: &str) {
    if let Some(ends) = asked.strip_prefix("stay ") {
        return tell_stay(told, problem, ends);
    }
    if let Some(asked) = asked.strip_prefix("wide ") {
        return tell_in(told, problem, asked);
    }
    if !is_shaped(problem) {
        return told.put("no shape");
    }
    let narrow = narrow_problem(told.alloc(), problem);
    match &narrow {
        Ok(Some(narrow)) => tell_both(told, problem, narrow, asked),
        _ => tell_in(told, problem, asked),
    }
    drop(narrow);
}

/// Tells what is asked of a problem.
pub(crate) fn tell(told: &mut Told, shared: &str, asked: &str) {
    match problem_of(told.alloc(), shared) {
        Some(problem) => {
            tell_of(told, &problem, asked);
            drop(problem);
        }
        None => told.put("no problem"),
    }
}
