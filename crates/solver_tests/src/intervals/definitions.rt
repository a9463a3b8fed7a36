//! Rank intervals as `rank_model` defines them, by plain enumeration in whole numbers: intervals that were worked by hand, and intervals of
//! drawn tables found in two ways.
//!
//! No code of an interval is called. Whether a tested value holds is found from all vertices of the dual
//! polytope of the restricted problem, and the ends from the least losses of the fits that keep the tested
//! coefficient.

use slow_ranks::{
    Bound, CRITICAL, Data, Ends, Parts, QUANTILES, RankTest, Ratio, Vertex, after, before, draw,
    draw_table, rank_test,
};
use std::alloc::Global;
use std::num::Wrapping;
use std::process::Abort;

/// An interval that was worked by hand: the column and the critical value at the median, and the ends. `None` is an infinite end.
type Case = (usize, Parts, Option<Parts>, Option<Parts>);

/// Five responses, whose squared length is 5. Up to a tested value of 1 all five dual values are 1/2, and their sum is 5/2. It falls by 1 at
/// each response, to 3/2 between 1 and 2, to 1/2 between 2 and 3, and so on to -5/2; at a response it has all values between. The bound of
/// its square is crit * 1/4 * 5.
///
/// With 1 the bound is 5/4: 1/4 is within it, and 9/4 is not. With 9/5 it is 9/4, a tie. With 5 it is 25/4, a tie with the greatest square
/// that there is. With 0 the sum must be 0, as it can be at 3 alone.
static FIVE: [Data; 5] = [
    ([1, 0, 0], 1, 1),
    ([1, 0, 0], 2, 1),
    ([1, 0, 0], 3, 1),
    ([1, 0, 0], 4, 1),
    ([1, 0, 0], 5, 1),
];

static OF_FIVE: [Case; 4] = [
    (0, [1, 1], Some([2, 1]), Some([4, 1])),
    (0, [9, 5], Some([1, 1]), Some([5, 1])),
    (0, [5, 1], None, None),
    (0, [0, 1], Some([3, 1]), Some([3, 1])),
];

/// A line through three points. Of the intercept, beside x: the ones less 2/5 of x leave 1, 3/5 and -1/5, of squared length 7/5, so
/// the bound is 6/7 * 1/4 * 7/5 = 3/10. Dual values balance x: e2 + 3 e3 = 0. The third row, of the
/// greater x, is fitted, with the slope (3 - xi)/3, and the second one lies above it where 2 - xi is more,
/// so where xi < 3/2: then e2 = 1/2 and e3 = -1/6, else e2 = -1/2 and e3 = 1/6. Of the first row -xi is
/// left, so e1 is 1/2 below 0 and -1/2 above it. The sum is 5/6 below 0, whose square is beyond, then -1/6
/// up to 3/2, and then -5/6.
///
/// Of x, beside the intercept: x less 4/3 leaves -4/3, -1/3 and 5/3, of squared length 14/3, so the bound
/// is 1. Dual values add to 0, so what is left of the middle row is fitted, with e = 0, and the rows above
/// and below it have 1/2 and -1/2. Up to 1/2 the order of 0, 2 - xi, 3 - 3 xi is that of the rows, and the
/// sum e2 + 3 e3 is 3/2, beyond. Between 1/2 and 1 the third row is in the middle, and it is 1/2; between
/// 1 and 2 the first row is, and it is -1; above 2 the second is, and it is -3/2.
static LINE: [Data; 3] = [([1, 0, 0], 0, 1), ([1, 1, 0], 2, 1), ([1, 3, 0], 3, 1)];

static OF_LINE: [Case; 2] = [
    (0, [6, 7], Some([0, 1]), Some([3, 2])),
    (1, [6, 7], Some([1, 2]), Some([2, 1])),
];

/// Ends of the first interval that are wrong: one too far out, or in, or none.
static WRONG: [(Option<Parts>, Option<Parts>); 6] = [
    (Some([2, 1]), Some([5, 1])),
    (Some([2, 1]), Some([3, 1])),
    (Some([1, 1]), Some([4, 1])),
    (Some([3, 1]), Some([4, 1])),
    (Some([2, 1]), None),
    (None, Some([4, 1])),
];

fn fraction([num, den]: Parts) -> Ratio {
    Ratio::new(Wrapping(num), Wrapping(den))
}

fn bound(end: Option<Parts>) -> Bound {
    match end {
        Some(end) => Bound::Finite(fraction(end)),
        None => Bound::Infinite,
    }
}

fn are_same(a: Bound, b: Bound) -> bool {
    match (a, b) {
        (Bound::Finite(a), Bound::Finite(b)) => a.is_same(b),
        (Bound::Infinite, Bound::Infinite) => true,
        _ => false,
    }
}

/// A rank test with its dual vertices and the coefficients of all bases.
#[derive(Drop)]
struct Tested {
    test: RankTest,
    vertices: Vec<Vertex>,
    values: Vec<Ratio>,
}

impl Tested {
    fn new(rt: &impl Abort, alloc: Global, test: RankTest) -> Tested {
        let vertices = test.vertices(alloc).ok().expect(rt, "memory");
        let values = test.coefficients(alloc).ok().expect(rt, "memory");
        Tested {
            test,
            vertices,
            values,
        }
    }

    fn ends(&self) -> Ends {
        self.test.ends(self.values.as_slice())
    }

    /// Whether the ends say of a tested value what the dual vertices say.
    fn agrees_at(&self, ends: &Ends, xi: Ratio) -> bool {
        self.test.holds(self.vertices.as_slice(), xi) == ends.contain(xi)
    }

    /// Whether they do at each coefficient, and on both sides of it, halfway to the next one.
    fn agrees(&self, ends: &Ends) -> bool {
        let two = Ratio::whole(2);
        let values = self.values.as_slice();
        for value in &self.values {
            let above = value.plus(after(values, *value)).over(two);
            let below = value.plus(before(values, *value)).over(two);
            if !self.agrees_at(ends, *value)
                || !self.agrees_at(ends, above)
                || !self.agrees_at(ends, below)
            {
                return false;
            }
        }
        true
    }
}

fn test_of(
    rt: &impl Abort,
    alloc: Global,
    table: (usize, &[Data]),
    column: usize,
    asked: (Parts, Ratio),
) -> Tested {
    let test = rank_test(alloc, table, column, asked)
        .ok()
        .expect(rt, "memory");
    Tested::new(rt, alloc, test)
}

/// The interval that was worked by hand has the ends that the least losses give, and holds what the dual
/// vertices say.
fn expect(rt: &impl Abort, alloc: Global, table: (usize, &[Data]), case: &Case) {
    let (column, crit, low, high) = *case;
    let found = test_of(rt, alloc, table, column, ([1, 2], fraction(crit)));
    let want = Ends {
        low: bound(low),
        high: bound(high),
    };
    let ends = found.ends();
    assert!(rt; are_same(ends.low, want.low) && are_same(ends.high, want.high));
    assert!(rt; found.agrees(&want));
    drop(found);
}

#[test]
fn intervals_by_hand(rt: HostRuntime) {
    for case in &OF_FIVE {
        expect(&rt, rt.alloc(), (1, FIVE.as_slice()), case);
    }
    for case in &OF_LINE {
        expect(&rt, rt.alloc(), (2, LINE.as_slice()), case);
    }
}

#[test]
fn wrong_ends_are_seen(rt: HostRuntime) {
    let asked = ([1, 2], Ratio::whole(1));
    let found = test_of(&rt, rt.alloc(), (1, FIVE.as_slice()), 0, asked);
    for (low, high) in &WRONG {
        let ends = Ends {
            low: bound(*low),
            high: bound(*high),
        };
        assert!(rt; !found.agrees(&ends));
    }
    drop(found);
}

/// How many tables of full rank were tried, and how many ends were finite and infinite.
#[derive(Clone, Copy)]
struct Counts {
    tables: u32,
    finite: u32,
    infinite: u32,
}

impl Counts {
    fn add(&mut self, end: Bound) {
        match end {
            Bound::Finite(_) => self.finite = self.finite.wrapping_add(1),
            Bound::Infinite => self.infinite = self.infinite.wrapping_add(1),
        }
    }

    /// Both ways agree on an interval.
    fn try_interval(&mut self, rt: &impl Abort, found: &Tested) {
        let ends = found.ends();
        assert!(rt; found.agrees(&ends));
        self.add(ends.low);
        self.add(ends.high);
    }
}

/// The intervals of a column, with a drawn critical value and with one that ties with a statistic;
/// `false` where the columns are dependent.
fn try_column(rt: &impl Abort, state: &mut u32, counts: &mut Counts, found: &mut Tested) -> bool {
    let count = found.values.len();
    if count == 0 {
        return false;
    }
    counts.try_interval(rt, found);
    let place = draw(state, 1000) as usize % count;
    found.test.crit = found.test.tie(found.values.as_slice(), found.values[place]);
    counts.try_interval(rt, found);
    true
}

fn try_table(rt: &impl Abort, alloc: Global, state: &mut u32, counts: &mut Counts, columns: usize) {
    let table = draw_table(alloc, state, columns).ok().expect(rt, "memory");
    let tau = QUANTILES[draw(state, 4) as usize];
    let mut has_rank = true;
    for column in 0..columns {
        let crit = fraction(CRITICAL[draw(state, 6) as usize]);
        let mut found = test_of(rt, alloc, (columns, table.as_slice()), column, (tau, crit));
        has_rank = try_column(rt, state, counts, &mut found);
        drop(found);
    }
    if has_rank {
        counts.tables = counts.tables.wrapping_add(1);
    }
    drop(table);
}

/// The numbers of tables and ends come from an enumeration that is no part of this program.
#[test]
fn two_ways_agree(rt: HostRuntime) {
    let mut state = 1;
    let mut counts = Counts {
        tables: 0,
        finite: 0,
        infinite: 0,
    };
    for number in 0..79 {
        try_table(&rt, rt.alloc(), &mut state, &mut counts, number % 3 + 1);
    }
    let Counts {
        tables,
        finite,
        infinite,
    } = counts;
    assert!(rt;
        (tables, finite, infinite) == (60, 220, 208),
        "{tables} {finite} {infinite}"
    );
}
