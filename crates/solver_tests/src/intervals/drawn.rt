//! Intervals of drawn tables, compared with those of a slow program: of a drawn critical value, and of those at, just
//! below and just above the statistic of a breakpoint. Of the 79 tables 66 have full rank.

use crate::helpers::{Answer, problem};
use crate::intervals::helpers::{Question, answered, in_wholes};
use frac_core::{Exact, Frac128};
use loss_model::{Bound, Problem};
use slow_ranks::{
    CRITICAL, Data, Ends, Parts, QUANTILES, RankTest, Ratio, draw, draw_table, rank_test,
};
use std::alloc::Global;
use std::num::Wrapping;
use std::process::Abort;
use test_kit::short_parts;

/// A column of a table that is tested: the problem, the question, and the slow test of it with the coefficients of
/// all bases.
#[derive(Drop)]
struct Tested {
    problem: Problem<Frac128>,
    column: u32,
    test: RankTest,
    values: Vec<Ratio>,
}

fn whole([num, den]: Parts) -> Ratio {
    Ratio::new(Wrapping(num), Wrapping(den))
}

/// An end that is found is the one of the slow program.
fn is_same(found: &Bound<Answer>, want: slow_ranks::Bound) -> bool {
    match (found, want) {
        (Bound::Finite(value), slow_ranks::Bound::Finite(end)) => {
            short_parts(value) == Some((end.num.0, end.den.0))
        }
        (Bound::Infinite, slow_ranks::Bound::Infinite) => true,
        _ => false,
    }
}

/// How many intervals were compared, how many of them whole numbers give alone, and how many ends were infinite.
#[derive(Clone, Copy)]
struct Counts {
    intervals: u32,
    whole: u32,
    infinite: u32,
}

impl Counts {
    fn add(&mut self, ends: &Ends, is_whole: bool) {
        self.intervals = self.intervals.wrapping_add(1);
        self.whole = self.whole.wrapping_add(u32::from(is_whole));
        for end in [ends.low, ends.high] {
            if let slow_ranks::Bound::Infinite = end {
                self.infinite = self.infinite.wrapping_add(1);
            }
        }
    }
}

impl Tested {
    /// The interval of a critical value is that of the slow program.
    fn compare(&mut self, rt: &impl Abort, alloc: Global, crit: Ratio, counts: &mut Counts) {
        self.test.crit = crit;
        let want = self.test.ends(self.values.as_slice());
        let question = Question {
            column: self.column,
            tau: (self.test.tau[0], self.test.tau[1]),
            crit: (crit.num.0, crit.den.0),
        };
        let found = answered(rt, alloc, &self.problem, question, 1000);
        assert!(rt; is_same(&found.low.bound, want.low));
        assert!(rt; is_same(&found.high.bound, want.high));
        drop(found);
        let quick = in_wholes(rt, alloc, &self.problem, question, 1000);
        counts.add(&want, quick.is_some());
        drop(quick);
    }
}

/// The intervals of a drawn critical value, and of those beside the statistic above a drawn coefficient; none where
/// the columns are dependent.
fn try_column(
    rt: &impl Abort,
    alloc: Global,
    state: &mut u32,
    counts: &mut Counts,
    tested: &mut Tested,
) {
    let count = tested.values.len();
    if count == 0 {
        return;
    }
    tested.compare(rt, alloc, whole(CRITICAL[draw(state, 6) as usize]), counts);
    let place = draw(state, 1000) as usize % count;
    assert!(rt; place < tested.values.len());
    let tie = tested
        .test
        .tie(tested.values.as_slice(), tested.values[place]);
    for factor in [[999, 1000], [1, 1], [1001, 1000]] {
        tested.compare(rt, alloc, tie.times(whole(factor)), counts);
    }
}

// A column of a table at a quantile.
fn tested_column(
    rt: &impl Abort,
    alloc: Global,
    (columns, table): (u32, &[Data]),
    column: u32,
    tau: Parts,
) -> Tested {
    let shape = (columns as usize, table);
    let asked = (tau, Ratio::whole(0));
    let test = rank_test(alloc, shape, column as usize, asked)
        .ok()
        .expect(rt, "memory");
    let values = test.coefficients(alloc).ok().expect(rt, "memory");
    Tested {
        problem: problem(rt, alloc, columns, 1, table),
        column,
        test,
        values,
    }
}

fn try_table(rt: &impl Abort, alloc: Global, state: &mut u32, counts: &mut Counts, columns: u32) {
    let table = draw_table(alloc, state, columns as usize)
        .ok()
        .expect(rt, "memory");
    let tau = QUANTILES[draw(state, 4) as usize];
    for column in 0..columns {
        let mut tested = tested_column(rt, alloc, (columns, table.as_slice()), column, tau);
        try_column(rt, alloc, state, counts, &mut tested);
        drop(tested);
    }
}

/// The numbers of intervals and of infinite ends come from an enumeration that is no part of this program. Whole numbers give
/// them all.
#[test]
fn drawn_intervals(rt: HostRuntime) {
    let mut state = 7;
    let mut counts = Counts {
        intervals: 0,
        whole: 0,
        infinite: 0,
    };
    for number in 0..79 {
        try_table(&rt, rt.alloc(), &mut state, &mut counts, number % 3 + 1);
    }
    let Counts {
        intervals,
        whole,
        infinite,
    } = counts;
    assert!(rt;
        (intervals, whole, infinite) == (492, 492, 412),
        "{intervals} {whole} {infinite}"
    );
}
