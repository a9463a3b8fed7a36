//! All conditions on a certificate.

ghost use Rattle.std.specs.Prelude.{◌≤◌, ◌^◌, IfOk, length};
ghost use Rattle.cert_text.specs.Limits.{IsWithinLimits};
ghost use Rattle.cert_checker.specs.Certificates.{first_tests, later_tests, tests, IsVerdict};
ghost use Rattle.cert_checker.specs.Runs.{all_sum_tests};
ghost use Rattle.cert_checker.specs.Verdicts.{Settles};
ghost use Rattle.cert_checker.specs.Views.{IsSmall, IsTableOf, IsTabled};

use crate::form::{RowForm, SegmentForm};
use crate::interval_form::{IntervalForm, Intervals};
use crate::intervals::IntervalConditions;
use crate::jobs::{InTurn, SegmentJobs};
use crate::place::Place;
use crate::quick::{Balances, Bounds, Costs, Joints, Losses, Quick, Together};
use crate::relation::Relation;
use crate::segments::{Ends, Rows, Segments};
use crate::tests::{Numbers, One, Tests, Then, counts};
use crate::verdict::{Halt, Verdict};
use cert_sums::{Table, whole_table};
use cert_text::Cert;
use frac_core::OutOfMemory;
use rq_fan::Gate;
use std::alloc::Global;
use std::thread::Threads;

// The first three conditions.
#[tactic(auto, unfolding(crate::specs::Certificates::first_tests))]
fn decide_first(alloc: Global, cert: &Cert, table: &Option<Table>) -> Result<(), Halt>
    requires limits { IsWithinLimits cert.now }
    requires table { IsTableOf cert.now.problem table.now }
    ensures { Settles (first_tests cert.now) result }
{
    let problem = &cert.problem;
    let range = One {
        at: Place {
            condition: 2,
            index: 0,
            inner: 0,
        },
        parts: Numbers {
            left: cert.lo,
            relation: Relation::AtMost,
            right: cert.hi,
        },
    };
    let costs = Costs {
        quick: Quick {
            alloc,
            problem,
            table,
        },
        lo: cert.lo,
        hi: cert.hi,
    };
    let list = &cert.segments;
    let some = One {
        at: Place {
            condition: 3,
            index: 0,
            inner: 0,
        },
        parts: counts(list.as_slice().len(), Relation::AtLeast, 1),
    };
    let ends = Ends {
        list,
        lo: cert.lo,
        hi: cert.hi,
    };
    Then(
        Rows {
            problem,
            of: RowForm { problem },
        },
        Then(
            Segments {
                list,
                of: SegmentForm { problem },
            },
            Then(
                Intervals {
                    list: &cert.intervals,
                    of: IntervalForm { problem },
                },
                Then(Then(range, costs), Then(some, ends)),
            ),
        ),
    )
    .decide(alloc)
}

// Conditions 6 to 8, one after the other.
fn decide_apart<R: Threads + Sync, G: Gate>(
    rt: &R,
    jobs: &SegmentJobs<'_, '_, G>,
    quick: Quick<'_>,
) -> Result<(), Halt>
    requires few { length jobs.now.list.now ≤ 2 ^ 20 }
    requires small { IsSmall quick.problem.now }
    requires table { IsTabled quick }
    ensures { Settles (all_sum_tests quick.entry.problem.now jobs.now.list.now) result }
{
    let list = jobs.list;
    jobs.decide(rt, InTurn(Balances { quick }))?;
    jobs.decide(rt, InTurn(Losses { quick }))?;
    jobs.decide(rt, InTurn(Joints { quick, list }))
}

// The same, of all segments at once first: where one of their tests isn't found to be true, the first such is looked for
// condition by condition.
fn decide_sums<R: Threads + Sync, G: Gate>(
    rt: &R,
    jobs: &SegmentJobs<'_, '_, G>,
    quick: Quick<'_>,
) -> Result<(), Halt>
    requires few { length jobs.now.list.now ≤ 2 ^ 20 }
    requires small { IsSmall quick.problem.now }
    requires table { IsTabled quick }
    ensures { Settles (all_sum_tests quick.entry.problem.now jobs.now.list.now) result }
{
    let list = jobs.list;
    match jobs.decide(rt, Together { quick, list }) {
        Ok(()) => Ok(()),
        Err(halt) => {
            drop(halt);
            decide_apart(rt, jobs, quick)
        }
    }
}

// The conditions on dual values, losses and intervals.
#[tactic(auto, unfolding(crate::specs::Certificates::later_tests))]
fn decide_quickly<R: Threads + Sync, G: Gate>(
    rt: &R,
    alloc: Global,
    cert: &Cert,
    gate: &G,
    table: &Option<Table>,
) -> Result<(), Halt>
    requires limits { IsWithinLimits cert.now }
    requires table { IsTableOf cert.now.problem table.now }
    ensures { Settles (later_tests cert.now) result }
{
    let problem = &cert.problem;
    let list = &cert.segments;
    let quick = Quick {
        alloc,
        problem,
        table,
    };
    let jobs = SegmentJobs { alloc, list, gate };
    let low = Bounds { quick, high: false };
    let high = Bounds { quick, high: true };
    jobs.decide(rt, InTurn(low))?;
    jobs.decide(rt, InTurn(high))?;
    decide_sums(rt, &jobs, quick)?;
    let intervals = Intervals {
        list: &cert.intervals,
        of: IntervalConditions { problem, table },
    };
    intervals.decide(alloc)
}

// All of them.
fn decide_all<R: Threads + Sync, G: Gate>(
    rt: &R,
    alloc: Global,
    cert: &Cert,
    gate: &G,
    table: &Option<Table>,
) -> Result<(), Halt>
    requires limits { IsWithinLimits cert.now }
    requires table { IsTableOf cert.now.problem table.now }
    ensures { Settles (tests cert.now) result }
{
    decide_first(alloc, cert, table)?;
    decide_quickly(rt, alloc, cert, gate, table)
}

// The same, over the problem in whole numbers where it is narrow enough for that.
fn decide<R: Threads + Sync, G: Gate>(
    rt: &R,
    alloc: Global,
    cert: &Cert,
    gate: &G,
) -> Result<(), Halt>
    requires { IsWithinLimits cert.now }
    ensures { Settles (tests cert.now) result }
{
    let table = whole_table(alloc, &cert.problem);
    decide_all(rt, alloc, cert, gate, &table)
}

/// Tests the nine conditions on a certificate that is within the limits of `read_cert`, in their order: that
/// the lists are as long as the problem wants them, that no cost is negative at the ends of the range, that
/// the segments lie side by side from `lo` to `hi`, that the basic dual values are within the costs and all
/// dual values orthogonal to each column at both ends of each segment, that the losses are those of the
/// coefficients and what the dual values come to, that every row has one dual value where two segments meet,
/// and that each rank interval has a projection and ends with dual values on either side of its bound.
///
/// Each condition on dual values and losses is tested by jobs at once, one for 64 consecutive segments, and the first
/// answer counts in the order of the segments. A job enters the gate with its place among those of its condition
/// before it works.
///
/// What can be shown by whole numbers is: no negative cost, and of a segment bounds, balances, losses and joints, and of an
/// interval bounds and sums over all rows. Where one is false, or a number is too wide for these, the tests are made one by one,
/// in fractions of any size.
///
/// `Accepted` says that all of them hold, and that so, whoever wrote the certificate, the segments cover the
/// range, with dual values of equal cost at both ends of each, so that the coefficients of a segment
/// minimise the loss at every quantile between (Koenker 2005, chapter 6), and that each interval shows
/// which values of its coefficient the rank test keeps (section 3.5): its ends, none beyond, and between
/// them all whose dual values are optimal. `Rejected` has the first test that is false, with its two sides.
/// There is no verdict only for want of memory: no number is too wide.
pub fn check<R: Threads + Sync, G: Gate>(
    rt: &R,
    alloc: Global,
    cert: &Cert,
    gate: &G,
) -> Result<Verdict, OutOfMemory>
    requires { IsWithinLimits cert.now }
    ensures { IfOk result (IsVerdict cert.now) }
{
    match decide(rt, alloc, cert, gate) {
        Ok(()) => Ok(Verdict::Accepted),
        Err(Halt::Rejected(rejection)) => Ok(Verdict::Rejected(rejection)),
        Err(Halt::OutOfMemory) => Err(OutOfMemory),
    }
}
