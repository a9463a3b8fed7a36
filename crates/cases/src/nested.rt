//! Problems without some of their columns, and statistics of these columns.

ghost use Rattle.std.specs.Prelude.{◌≡◌, ◌<◌, All, IsTrue, length};
ghost use Rattle.std.specs.List.Sorted.{IsStrictlyIncreasing};
ghost use Rattle.nested_test.specs.Restricted.{AreTested};

use crate::grams::{are_independent, widened};
use crate::losses::tell_problem;
use crate::numbers::counts_of;
use crate::told::Told;
use frac_core::{Exact, Frac128};
use loss_model::Problem;
use nested_test::{NestedStatistic, nested, restricted};
use ratio::Ratio;
use std::alloc::Global;
use test_kit::{are_data, is_shaped};

// Whether columns ascend.
fn is_ascending(tested: &[u32]) -> bool
    ensures { IsTrue result → IsStrictlyIncreasing tested.now }
{
    for place in 1..tested.len() {
        if tested[place - 1] >= tested[place] {
            return false;
        }
    }
    true
}

// Whether they are columns of a problem.
fn are_columns(tested: &[u32], columns: u32) -> bool
    ensures { IsTrue result → All (λ k. k < columns) tested.now }
{
    tested.iter().all(|column| *column < columns)
}

fn are_tested(tested: &[u32], columns: u32) -> bool
    ensures { IsTrue result → AreTested columns tested.now }
{
    is_ascending(tested) && are_columns(tested, columns)
}

// What `nested` answers where its conditions are met.
fn statistic_of<F: Exact>(
    alloc: Global,
    full: &Problem<F>,
    tested: &[u32],
    wilcoxon: &[Ratio],
) -> Option<NestedStatistic> {
    if !is_shaped(full) {
        return None;
    }
    if !are_data(full) {
        return None;
    }
    if !are_tested(tested, full.columns) {
        return None;
    }
    if wilcoxon.len() != full.rows.as_slice().len() {
        return None;
    }
    if !are_independent(alloc, full) {
        return None;
    }
    nested(alloc, full, tested, wilcoxon).ok()
}

fn tell_statistic<F: Exact>(
    told: &mut Told,
    full: &Problem<F>,
    tested: &[u32],
    wilcoxon: &[Ratio],
) {
    match statistic_of(told.alloc(), full, tested, wilcoxon) {
        Some(found) => {
            told.put_ratios(found.scores.as_slice());
            told.put("; ");
            told.put_ratio(&found.statistic);
        }
        None => told.put("no statistic"),
    }
}

/// Tells the scores of columns and their statistic, by the scores of the rows behind ` ; `.
pub(crate) fn tell_nested<F: Exact>(told: &mut Told, full: &Problem<F>, asked: &str) {
    let (tested, wilcoxon) = asked.split_once(" ; ").unwrap_or((asked, ""));
    let tested = counts_of(told.alloc(), tested);
    let wilcoxon = widened(told.alloc(), wilcoxon);
    match (&tested, &wilcoxon) {
        (Some(tested), Some(wilcoxon)) => {
            tell_statistic(told, full, tested.as_slice(), wilcoxon.as_slice());
        }
        _ => told.put("no number"),
    }
}

fn tell_restricted(told: &mut Told, full: &Problem<Frac128>, tested: &[u32]) {
    if !is_shaped(full) {
        return told.put("no shape");
    }
    if !are_tested(tested, full.columns) {
        return told.put("other columns");
    }
    if tested.len() >= full.columns as usize {
        return told.put("no column");
    }
    let made = restricted(told.alloc(), full, tested);
    match &made {
        Ok(problem) => tell_problem(told, problem),
        Err(_) => told.put("no memory"),
    }
    drop(made);
}

/// Tells a problem without some of its columns.
pub(crate) fn tell_without(told: &mut Told, full: &Problem<Frac128>, asked: &str) {
    match counts_of(told.alloc(), asked) {
        Some(tested) => tell_restricted(told, full, tested.as_slice()),
        None => told.put("no number"),
    }
}
