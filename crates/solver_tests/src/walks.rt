//! Walks over a range of quantiles on drawn problems, whose losses stand beside the least loss over all bases.

use crate::bodies::{expect_no_start, expect_same};
use crate::helpers::{Answer, Ratio, expect_dependent, make_problem, push, short, walk};
use crate::least_loss::{Fit, Loss, OVER, Small, draw_problem, fit_at, has_least_loss};
use frac_core::{Exact, Frac128};
use loss_model::{Exchange, Process, Segment};
use std::alloc::Global;
use std::num::Wrapping;
use std::process::Abort;

/// The loss of a fit at a quantile is the least over all bases.
fn least_at(rt: &impl Abort, small: &mut Small, fit: &Fit, theta: Ratio) -> Loss {
    small.theta = theta;
    let loss = small.loss(fit);
    match small.least() {
        Some(least) => assert!(rt; loss.is_same(least)),
        None => panic!(rt; "the rank is full"),
    }
    loss
}

/// The loss is this value, at a quantile over this denominator.
fn expect_loss(rt: &impl Abort, loss: Loss, over: i128, value: &Answer) {
    let (n, d) = short(rt, value);
    let scale = loss.over * Wrapping(OVER * OVER) * Wrapping(over);
    assert!(rt; loss.sum * Wrapping(d) == Wrapping(n) * scale);
}

/// The coefficients of a segment are optimal at both ends and in the middle, and its losses are right.
fn expect_optimal(rt: &impl Abort, small: &mut Small, segment: &Segment) {
    let fit = fit_at(segment.vertex.coef.as_slice());
    let (n, d) = short(rt, &segment.lo);
    let (m, e) = short(rt, &segment.hi);
    let at_lo = least_at(rt, small, &fit, (n, d));
    expect_loss(rt, at_lo, d, &segment.loss_lo);
    let at_hi = least_at(rt, small, &fit, (m, e));
    expect_loss(rt, at_hi, e, &segment.loss_hi);
    let middle = (
        n.wrapping_mul(e).wrapping_add(m.wrapping_mul(d)),
        d.wrapping_mul(e).wrapping_mul(2),
    );
    least_at(rt, small, &fit, middle);
}

/// The segments go from 0 to 1 without a gap, and none is of one point.
fn expect_cover(rt: &impl Abort, process: &Process) {
    let mut now = (0, 1);
    for segment in process.segments.as_slice() {
        let (n, d) = short(rt, &segment.lo);
        let (m, e) = short(rt, &segment.hi);
        assert!(rt; (n, d) == now);
        assert!(rt; n.wrapping_mul(e) < m.wrapping_mul(d));
        now = (m, e);
    }
    assert!(rt; now == (1, 1));
}

/// How many steps are at the quantile of the step before, after 0.
fn count_together(rt: &impl Abort, steps: &[Exchange]) -> u32 {
    let mut together = 0;
    let mut last = (0, 1);
    for step in steps {
        let theta = short(rt, &step.theta);
        if theta.0 > 0 && theta == last {
            together = u32::wrapping_add(together, 1);
        }
        last = theta;
    }
    together
}

/// The segments of a walk are those of the least losses. Gives how many steps are at the quantile of the step before.
fn together_in(rt: &impl Abort, small: &mut Small, process: &Process) -> u32 {
    expect_cover(rt, process);
    for segment in process.segments.as_slice() {
        expect_optimal(rt, small, segment);
    }
    count_together(rt, process.trail.steps.as_slice())
}

/// The solve and the walk over 0 to 1 of a drawn problem have the least losses, in both bodies; where its columns are
/// dependent there is neither. Gives how many steps are at the quantile of the step before, where the rank is full.
fn expect_least(rt: &impl Abort, alloc: Global, small: &mut Small) -> Option<u32> {
    let problem = make_problem(rt, alloc, small.columns, OVER, small.rows.as_slice());
    let is_full = has_least_loss(rt, alloc, small, &problem);
    let range = (Frac128::zero(), Frac128::one());
    let answer = walk(rt, alloc, &problem, range, 200);
    assert!(rt; answer.is_ok() == is_full);
    let together = match &answer {
        Ok(process) => {
            expect_same(rt, alloc, &problem, process);
            Some(together_in(rt, small, process))
        }
        Err(stop) => {
            expect_dependent(rt, stop);
            expect_no_start(rt, alloc, &problem);
            None
        }
    };
    drop(answer);
    drop(problem);
    together
}

/// Problems that are drawn from a seed: how many they are, which of them have dependent columns, by an elimination that is no
/// part of this program, and at least how many steps of their walks are at the quantile of the step before.
struct Draws {
    seed: u32,
    count: u32,
    dependent: &'static [u32],
    together: u32,
}

static DRAWN: [Draws; 3] = [
    Draws {
        seed: 1,
        count: 150,
        dependent: &[3, 34, 47, 50, 56, 62, 76, 143],
        together: 1,
    },
    Draws {
        seed: 7,
        count: 100,
        dependent: &[8, 19, 32, 41, 95],
        together: 1,
    },
    Draws {
        seed: 11,
        count: 60,
        dependent: &[0, 5, 31, 49],
        together: 0,
    },
];

fn expect_drawn(rt: &impl Abort, alloc: Global, draws: &Draws) {
    let mut state = draws.seed;
    let mut dependent = Vec::new(alloc);
    let mut together = 0u32;
    for number in 0..draws.count {
        let mut small = draw_problem(rt, alloc, &mut state, number % 3 + 1);
        match expect_least(rt, alloc, &mut small) {
            Some(count) => together = together.saturating_add(count),
            None => push(rt, &mut dependent, number),
        }
        drop(small);
    }
    assert!(rt; dependent.as_slice() == draws.dependent);
    assert!(rt; together >= draws.together);
    drop(dependent);
}

// Problems with ties, rows twice with two weights, penalties and costs of other kinds.
#[test]
fn least_losses_over_all_bases(rt: HostRuntime) {
    for draws in &DRAWN {
        expect_drawn(&rt, rt.alloc(), draws);
    }
}
