//! The conditions on the segments of a certificate.

ghost use Rattle.std.specs.Prelude.{◌≡◌, ◌≤◌, ◌<◌, ◌+◌, ◌^◌, ◌++◌, ℕ, List as list, [], length, slice_get, eqb, IfOk, if◌then◌else◌};
ghost use Rattle.std.specs.Option.{option_map_or};
ghost use Rattle.rational_laws.specs.Fraction.{rational};
ghost use Rattle.frac_core.specs.Values.{value as value128};
ghost use Rattle.loss_model.specs.declared.process.Segment.{Segment as Piece};
ghost use Rattle.loss_model.specs.Problem.{sample};
ghost use Rattle.cert_checker.specs.Formulas.{given};
ghost use Rattle.cert_checker.specs.Tests.{Test, one, upto};
ghost use Rattle.cert_checker.specs.Conditions.{each, zero_formula, side_in, dual_at_row, balance, bound_parts, bound_test, loss_tests, cost_tests, row_costs, lo_at, hi_at, first_end, order_of_ends, joint_end};
ghost use Rattle.cert_checker.specs.Given.{AllGiven};
ghost use Rattle.cert_checker.specs.Verdicts.{Settles};
ghost use Rattle.cert_checker.specs.Views.{end_of};
ghost use Rattle.cert_checker.specs.declared.relation.Relation.TheVariants.{AtMost, Below, Equal};
ghost use Rattle.loss_model.specs.declared.vertex.Side.TheVariants.{Basic};

use crate::formula::{Count, Expression, Negation, Number, Stated};
use crate::leaves::{
    BalanceTerms, DownCost, DualValue, EndView, LossTerms, ObjectiveTerms, PricedRow, RowSum,
    UpCost, rows,
};
use crate::place::Place;
use crate::relation::Relation;
use crate::tests::{Both, Comparison, ComposedParts, One, Tests, TestsOf, Then, decide_each};
use crate::verdict::Halt;
use cert_sums::side;
use frac_core::{Frac128, List, OutOfMemory};
use loss_model::{Problem, Segment, Side};
use ratio::Ratio;
use std::alloc::Global;

// ---- condition 2

/// The tests that neither cost of a row is negative at a parameter; they begin with a number.
#[derive(Clone, Copy)]
pub(crate) struct CostsAt<'a> {
    pub(crate) problem: &'a Problem<Frac128>,
    pub(crate) theta: &'a Ratio,
    pub(crate) row: usize,
    pub(crate) inner: u32,
}

impl Tests for CostsAt<'_> {
    ghost tests = { λ x. cost_tests (sample value128 x.problem.now) (rational x.theta.now) x.row x.inner };

    ghost few = { λ x. (x.row < 16384) × (x.inner ≤ 3) };

    fn decide(self, alloc: Global) -> Result<(), Halt> {
        let of = PricedRow {
            problem: self.problem,
            theta: self.theta,
            row: self.row,
        };
        let index = self.row as u32 + 1;
        let up = One {
            at: Place {
                condition: 2,
                index,
                inner: self.inner,
            },
            parts: Comparison {
                left: UpCost(of),
                relation: Relation::AtLeast,
                right: Count(0),
            },
        };
        let down = One {
            at: Place {
                condition: 2,
                index,
                inner: self.inner + 1,
            },
            parts: Comparison {
                left: DownCost(of),
                relation: Relation::AtLeast,
                right: Count(0),
            },
        };
        Then(up, down).decide(alloc)
    }
}

/// The costs of a row at both ends of the range.
#[derive(Clone, Copy)]
pub(crate) struct CostRows<'a> {
    pub(crate) problem: &'a Problem<Frac128>,
    pub(crate) lo: &'a Ratio,
    pub(crate) hi: &'a Ratio,
}

impl TestsOf for CostRows<'_> {
    ghost tests_of = { λ x i. row_costs (sample value128 x.problem.now) (rational x.lo.now) (rational x.hi.now) i };

    ghost given_of = { λ x i. i < 16384 };

    fn decide_of(self, alloc: Global, i: usize) -> Result<(), Halt> {
        let low = CostsAt {
            problem: self.problem,
            theta: self.lo,
            row: i,
            inner: 1,
        };
        let high = CostsAt {
            problem: self.problem,
            theta: self.hi,
            row: i,
            inner: 3,
        };
        Then(low, high).decide(alloc)
    }
}

// ---- conditions 4 and 5

/// The dual value of a basic row is at most its up cost and at least its negated down cost.
#[derive(Clone, Copy)]
pub(crate) struct BasicBounds<'a> {
    pub(crate) end: EndView<'a>,
    pub(crate) row: usize,
}

// That a dual value is at most a cost, and at least another one negated.
type Within<'a> = Both<
    Comparison<DualValue<'a>, UpCost<'a>>,
    Comparison<DualValue<'a>, Negation<DownCost<'a>>>,
>;

impl<'a> ComposedParts for BasicBounds<'a> {
    type Whole = Within<'a>;

    ghost composed_parts = { λ x. bound_parts (sample value128 x.end.problem.now) (end_of x.end) x.row Basic };

    fn whole(self) -> Within<'a> {
        let of = PricedRow {
            problem: self.end.problem,
            theta: self.end.theta,
            row: self.row,
        };
        let dual = DualValue {
            end: self.end,
            row: self.row,
        };
        let under = Comparison {
            left: dual,
            relation: Relation::AtMost,
            right: UpCost(of),
        };
        let over = Comparison {
            left: dual,
            relation: Relation::AtLeast,
            right: Negation(DownCost(of)),
        };
        Both(under, over)
    }
}

/// The bounds of the dual values of an end.
#[derive(Clone, Copy)]
pub(crate) struct BoundRows<'a> {
    pub(crate) condition: u8,
    pub(crate) index: u32,
    pub(crate) end: EndView<'a>,
}

impl TestsOf for BoundRows<'_> {
    ghost tests_of = { λ x i. bound_test x.condition x.index (sample value128 x.end.problem.now) (end_of x.end) i (side_in x.end.vertex.now i) };

    ghost given_of = { λ x i. i < 16384 };

    fn decide_of(self, alloc: Global, i: usize) -> Result<(), Halt> {
        match side(self.end.vertex, i) {
            Side::Basic => One {
                at: Place {
                    condition: self.condition,
                    index: self.index,
                    inner: i as u32 + 1,
                },
                parts: BasicBounds {
                    end: self.end,
                    row: i,
                },
            }
            .decide(alloc),
            Side::Up => Ok(()),
            Side::Down => Ok(()),
        }
    }
}

// ---- condition 6

/// The sums of dual value times entry at an end, whose tests are numbered behind so many others.
#[derive(Clone, Copy)]
pub(crate) struct BalanceColumns<'a> {
    pub(crate) index: u32,
    pub(crate) before: u32,
    pub(crate) end: EndView<'a>,
}

impl TestsOf for BalanceColumns<'_> {
    ghost tests_of = { λ x k. one 6 x.index (x.before + k + 1) (balance (sample value128 x.end.problem.now) (end_of x.end) k) Equal zero_formula };

    ghost given_of = { λ x k. (k < 128) × (x.before ≤ 128) };

    fn decide_of(self, alloc: Global, i: usize) -> Result<(), Halt> {
        One {
            at: Place {
                condition: 6,
                index: self.index,
                inner: self.before + i as u32 + 1,
            },
            parts: Comparison {
                left: RowSum {
                    problem: self.end.problem,
                    terms: BalanceTerms {
                        end: self.end,
                        column: i,
                    },
                },
                relation: Relation::Equal,
                right: Count(0),
            },
        }
        .decide(alloc)
    }
}

// ---- condition 7

/// One end of a segment with the loss that is stated there; its tests begin with a number.
#[derive(Clone, Copy)]
pub(crate) struct LossAt<'a> {
    pub(crate) index: u32,
    pub(crate) inner: u32,
    pub(crate) end: EndView<'a>,
    pub(crate) stated: &'a Ratio,
}

// The loss is that of the coefficients, and the sum of response times dual value.
impl Tests for LossAt<'_> {
    ghost tests = { λ x. loss_tests (sample value128 x.end.problem.now) x.index (end_of x.end) x.stated.now x.inner };

    ghost few = { λ x. x.inner ≤ 3 };

    fn decide(self, alloc: Global) -> Result<(), Halt> {
        let problem = self.end.problem;
        let loss = One {
            at: Place {
                condition: 7,
                index: self.index,
                inner: self.inner,
            },
            parts: Comparison {
                left: Stated(self.stated),
                relation: Relation::Equal,
                right: RowSum {
                    problem,
                    terms: LossTerms {
                        problem,
                        theta: self.end.theta,
                        coef: &self.end.vertex.coef,
                    },
                },
            },
        };
        let objective = One {
            at: Place {
                condition: 7,
                index: self.index,
                inner: self.inner + 1,
            },
            parts: Comparison {
                left: Stated(self.stated),
                relation: Relation::Equal,
                right: RowSum {
                    problem,
                    terms: ObjectiveTerms { end: self.end },
                },
            },
        };
        Then(loss, objective).decide(alloc)
    }
}

// ---- condition 8

/// The dual values where two segments meet.
#[derive(Clone, Copy)]
pub(crate) struct JointRows<'a> {
    pub(crate) index: u32,
    pub(crate) high: EndView<'a>,
    pub(crate) low: EndView<'a>,
}

impl TestsOf for JointRows<'_> {
    ghost tests_of = { λ x i. one 8 x.index (i + 1) (dual_at_row (sample value128 x.high.problem.now) (end_of x.high) i) Equal (dual_at_row (sample value128 x.low.problem.now) (end_of x.low) i) };

    ghost given_of = { λ x i. i < 16384 };

    fn decide_of(self, alloc: Global, i: usize) -> Result<(), Halt> {
        One {
            at: Place {
                condition: 8,
                index: self.index,
                inner: i as u32 + 1,
            },
            parts: Comparison {
                left: DualValue {
                    end: self.high,
                    row: i,
                },
                relation: Relation::Equal,
                right: DualValue {
                    end: self.low,
                    row: i,
                },
            },
        }
        .decide(alloc)
    }
}

// ---- over all segments

/// Tests of a segment, whose index counts from 1.
pub(crate) trait SegmentTests: Copy {
    /// The tests.
    ghost segment_tests: { Self → ℕ → Piece → list Test };

    /// What is known of the problem and of a segment, with its index.
    ghost segment_given: { Self → ℕ → Piece → Type 0 };

    /// Nothing where all are true.
    fn decide_segment(self, alloc: Global, index: u32, segment: &Segment) -> Result<(), Halt>
        requires { segment_given self index segment.now }
        ensures { Settles (segment_tests self index segment.now) result };
}

/// The tests of all segments, one after the other.
#[derive(Clone, Copy)]
pub(crate) struct Segments<'a, T> {
    pub(crate) list: &'a List<Segment>,
    pub(crate) of: T,
}

impl<T: SegmentTests> TestsOf for Segments<'_, T> {
    ghost tests_of = { λ x j. option_map_or (T.segment_tests x.of (j + 1)) (slice_get x.list.now j) [] };

    ghost given_of = { λ x j. (j < 2 ^ 20) × AllGiven x.list.now (T.segment_given x.of) };

    fn decide_of(self, alloc: Global, i: usize) -> Result<(), Halt> {
        match self.list.as_slice().get(i) {
            Some(segment) => self.of.decide_segment(alloc, i as u32 + 1, segment),
            None => Ok(()),
        }
    }
}

impl<T: SegmentTests> Tests for Segments<'_, T> {
    ghost tests = { λ x. each x.list.now (T.segment_tests x.of) };

    ghost few = { λ x. (length x.list.now ≤ 2 ^ 20) × AllGiven x.list.now (T.segment_given x.of) };

    fn decide(self, alloc: Global) -> Result<(), Halt> {
        let count = self.list.as_slice().len();
        decide_each(alloc, count, self)
    }
}

/// The tests of all rows of a problem, one after the other.
#[derive(Clone, Copy)]
pub(crate) struct Rows<'a, T> {
    pub(crate) problem: &'a Problem<Frac128>,
    pub(crate) of: T,
}

impl<T: TestsOf> Tests for Rows<'_, T> {
    ghost tests = { λ x. upto (length x.problem.now.rows) (T.tests_of x.of) };

    ghost few = { λ x. (length x.problem.now.rows ≤ 16384) × ((i : ℕ) → i < 16384 → T.given_of x.of i) };

    fn decide(self, alloc: Global) -> Result<(), Halt> {
        let count = rows(self.problem);
        decide_each(alloc, count, self.of)
    }
}

/// The tests of all columns.
#[derive(Clone, Copy)]
pub(crate) struct Columns<'a, T> {
    pub(crate) problem: &'a Problem<Frac128>,
    pub(crate) of: T,
}

impl<T: TestsOf> Tests for Columns<'_, T> {
    ghost tests = { λ x. upto x.problem.now.columns (T.tests_of x.of) };

    ghost few = { λ x. (x.problem.now.columns ≤ 128) × ((k : ℕ) → k < 128 → T.given_of x.of k) };

    fn decide(self, alloc: Global) -> Result<(), Halt> {
        decide_each(alloc, self.problem.columns as usize, self.of)
    }
}

// ---- condition 3

// Where a segment of a list begins, and 0 beyond the last.
fn low_at(alloc: Global, list: &[Segment], place: usize) -> Result<Ratio, OutOfMemory>
    ensures { IfOk result (λ r. rational r ≡ lo_at list.now place) }
{
    match list.get(place) {
        Some(segment) => segment.lo.copy(alloc),
        None => Ratio::zero(alloc),
    }
}

// Where it ends.
fn high_at(alloc: Global, list: &[Segment], place: usize) -> Result<Ratio, OutOfMemory>
    ensures { IfOk result (λ r. rational r ≡ hi_at list.now place) }
{
    match list.get(place) {
        Some(segment) => segment.hi.copy(alloc),
        None => Ratio::zero(alloc),
    }
}

/// Where a segment of a list begins.
#[derive(Clone, Copy)]
pub(crate) struct LowEnd<'a> {
    pub(crate) list: &'a List<Segment>,
    pub(crate) place: usize,
}

impl Expression for LowEnd<'_> {
    ghost formula = { λ x. given (lo_at x.list.now x.place) };

    fn value(self, alloc: Global) -> Result<Ratio, OutOfMemory> {
        let low = low_at(alloc, self.list.as_slice(), self.place)?;
        Ok(low)
    }
}

/// Where it ends.
#[derive(Clone, Copy)]
pub(crate) struct HighEnd<'a> {
    pub(crate) list: &'a List<Segment>,
    pub(crate) place: usize,
}

impl Expression for HighEnd<'_> {
    ghost formula = { λ x. given (hi_at x.list.now x.place) };

    fn value(self, alloc: Global) -> Result<Ratio, OutOfMemory> {
        let high = high_at(alloc, self.list.as_slice(), self.place)?;
        Ok(high)
    }
}

/// The ends of the segments of a range.
#[derive(Clone, Copy)]
pub(crate) struct Ends<'a> {
    pub(crate) list: &'a List<Segment>,
    pub(crate) lo: Frac128,
    pub(crate) hi: Frac128,
}

impl Ends<'_> {
    // The first segment begins where the range does.
    fn first(self, alloc: Global, segment: usize) -> Result<(), Halt>
        ensures { Settles (first_end self.entry.list.now (rational (value128 self.entry.lo)) segment) result }
    {
        if segment != 0 {
            return Ok(());
        }
        One {
            at: Place {
                condition: 3,
                index: 1,
                inner: 1,
            },
            parts: Comparison {
                left: LowEnd {
                    list: self.list,
                    place: 0,
                },
                relation: Relation::Equal,
                right: Number(self.lo),
            },
        }
        .decide(alloc)
    }

    // A segment has a length, but for a single one.
    fn order(self, alloc: Global, segment: usize) -> Result<(), Halt>
        requires { segment < 2 ^ 20 }
        ensures { Settles (order_of_ends self.entry.list.now segment) result }
    {
        let relation = order_in(self.list.as_slice().len());
        One {
            at: Place {
                condition: 3,
                index: segment as u32 + 1,
                inner: 2,
            },
            parts: Comparison {
                left: LowEnd {
                    list: self.list,
                    place: segment,
                },
                relation,
                right: HighEnd {
                    list: self.list,
                    place: segment,
                },
            },
        }
        .decide(alloc)
    }

    // It ends where the next one begins, or where the range does.
    fn joint(self, alloc: Global, segment: usize) -> Result<(), Halt>
        requires { segment < 2 ^ 20 }
        ensures { Settles (joint_end self.entry.list.now (rational (value128 self.entry.hi)) segment) result }
    {
        let index = segment as u32 + 1;
        let left = HighEnd {
            list: self.list,
            place: segment,
        };
        if segment + 1 == self.list.as_slice().len() {
            return One {
                at: Place {
                    condition: 3,
                    index,
                    inner: 4,
                },
                parts: Comparison {
                    left,
                    relation: Relation::Equal,
                    right: Number(self.hi),
                },
            }
            .decide(alloc);
        }
        One {
            at: Place {
                condition: 3,
                index,
                inner: 3,
            },
            parts: Comparison {
                left,
                relation: Relation::Equal,
                right: LowEnd {
                    list: self.list,
                    place: segment + 1,
                },
            },
        }
        .decide(alloc)
    }
}

// How the ends of a segment stand to each other, where there are so many segments.
fn order_in(count: usize) -> Relation
    ensures { result ≡ (if eqb count 1 then AtMost else Below) }
{
    if count == 1 {
        return Relation::AtMost;
    }
    Relation::Below
}

impl TestsOf for Ends<'_> {
    ghost tests_of = { λ x j. first_end x.list.now (rational (value128 x.lo)) j ++ (order_of_ends x.list.now j ++ joint_end x.list.now (rational (value128 x.hi)) j) };

    ghost given_of = { λ x j. j < 2 ^ 20 };

    fn decide_of(self, alloc: Global, i: usize) -> Result<(), Halt> {
        self.first(alloc, i)?;
        self.order(alloc, i)?;
        self.joint(alloc, i)
    }
}

impl Tests for Ends<'_> {
    ghost tests = { λ x. upto (length x.list.now) (λ j. first_end x.list.now (rational (value128 x.lo)) j ++ (order_of_ends x.list.now j ++ joint_end x.list.now (rational (value128 x.hi)) j)) };

    ghost few = { λ x. length x.list.now ≤ 2 ^ 20 };

    fn decide(self, alloc: Global) -> Result<(), Halt> {
        let count = self.list.as_slice().len();
        decide_each(alloc, count, self)
    }
}
