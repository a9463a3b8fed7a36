//! Rank intervals as jobs: they enter the gate with their places, and their answers stand in the jobs' order.

use crate::helpers::{Answer, Data, Ratio, fraction, problem, push};
use frac_core::{Exact, Frac128};
use loss_model::{Bound, Interval, Problem};
use rank_inversion::IntervalJob;
use rq_fan::{Gate, run_jobs};
use std::alloc::Global;
use std::process::Abort;
use std::sync::atomic::{AtomicU64, Ordering};
use test_kit::{are_data, is_less, is_ordered, is_shaped, short_parts};

/// A gate that adds up the places that enter, each times itself: no other places have the sum.
#[derive(Drop)]
struct Tally {
    squares: AtomicU64,
}

impl Gate for Tally {
    fn enter(&self, place: u32) {
        let place = u64::from(place);
        self.squares.fetch_add(place * place, Ordering::SeqCst);
    }
}

/// A column at the median, with the critical value 6/7.
fn job<'a>(
    rt: &impl Abort,
    alloc: Global,
    problem: &'a Problem<Frac128>,
    column: u32,
    gate: &'a Tally,
) -> IntervalJob<'a, Frac128, Tally> {
    let tau = fraction(rt, (1, 2));
    let crit = fraction(rt, (6, 7));
    assert!(rt; is_shaped(problem));
    assert!(rt; column < problem.columns);
    assert!(rt; is_less(Frac128::zero(), tau) && is_less(tau, Frac128::one()));
    assert!(rt; is_ordered(Frac128::zero(), crit));
    assert!(rt; are_data(problem));
    IntervalJob {
        alloc,
        problem,
        column,
        tau,
        crit,
        limit: 10,
        gate,
        place: 4 + 2 * column,
    }
}

/// The value of a finite end.
fn end(bound: &Bound<Answer>) -> Option<Ratio> {
    match bound {
        Bound::Finite(value) => short_parts(value),
        Bound::Infinite => None,
    }
}

/// A line through three points. How its two intervals come about stands in `intervals.txt` of `cases`.
static LINE: [Data; 3] = [([1, 0, 0], 0, 1), ([1, 1, 0], 2, 1), ([1, 3, 0], 3, 1)];

static ENDS: [(Ratio, Ratio); 2] = [((0, 1), (3, 2)), ((1, 2), (2, 1))];

fn expect_ends(rt: &impl Abort, found: &Interval, (low, high): (Ratio, Ratio)) {
    assert!(rt; end(&found.low.bound) == Some(low));
    assert!(rt; end(&found.high.bound) == Some(high));
}

#[test]
fn both_columns_of_a_line(rt: HostRuntime) {
    let line: Problem<Frac128> = problem(&rt, rt.alloc(), 2, 1, &LINE);
    let gate = Tally {
        squares: AtomicU64::new(0),
    };
    let mut jobs = Vec::new(rt.alloc());
    for column in 0..2 {
        push(&rt, &mut jobs, job(&rt, rt.alloc(), &line, column, &gate));
    }
    let answers = run_jobs(&rt, rt.alloc(), jobs).expect(&rt, "memory");
    assert!(rt; answers.len() == 2);
    for (answer, ends) in answers.iter().zip(&ENDS) {
        let found = answer.as_ref().ok().expect(&rt, "an interval");
        expect_ends(&rt, found, *ends);
    }
    assert!(rt; gate.squares.load(Ordering::SeqCst) == 52);
    drop(answers);
    drop(line);
}
