//! Condition 9, by sums of whole numbers first: that these are `true` says that the tests are, and `false` says nothing.

ghost use Rattle.std.specs.Prelude.{ℕ, IfSome, IsTrue};
ghost use Rattle.frac_core.specs.Values.{value as value128};
ghost use Rattle.loss_model.specs.Problem.{sample};
ghost use Rattle.cert_sums.specs.Ranks.{IsBeyondBound};
ghost use Rattle.cert_checker.specs.Intervals.{values_of, inside_tests};
ghost use Rattle.cert_checker.specs.Tests.{AreTrue};
ghost use Rattle.cert_checker.specs.Views.{IsTableOf, question, projection_tests, outside_tests};

use crate::projection::IntervalView;
use crate::way::Way;
use cert_sums::{WholeProblem, beyond_bound, lies_inside, projects};
use frac_core::{Exact, Frac128, List};
use loss_model::{End, Vertex};
use ratio::Ratio;
use std::alloc::Global;

impl IntervalView<'_> {
    /// The tests of its projection.
    pub(crate) fn projects(self, alloc: Global) -> bool
        requires { IsTableOf self.problem.now self.table.now }
        ensures { IsTrue result → (m : ℕ) → AreTrue (projection_tests (question self.entry) m) }
    {
        match self.table {
            Some(table) => projects(
                alloc,
                WholeProblem {
                    problem: self.problem,
                    table,
                },
                self.interval,
            ),
            None => false,
        }
    }

    /// All tests inside an end.
    pub(crate) fn lies_inside(self, alloc: Global, end: &End) -> bool
        requires { IsTableOf self.problem.now self.table.now }
        ensures { IsTrue result → (m n : ℕ) → AreTrue (inside_tests (question self.entry) m n (values_of (question self.entry) end.now.vertex end.now.inside)) }
    {
        match self.table {
            Some(table) => lies_inside(
                alloc,
                WholeProblem {
                    problem: self.problem,
                    table,
                },
                self.interval,
                &end.vertex,
                &end.inside,
            ),
            None => false,
        }
    }

    // The statistic of dual values outside of an end.
    fn statistic(self, alloc: Global, vertex: &Vertex, outside: &List<Ratio>) -> Option<Frac128>
        requires { IsTableOf self.problem.now self.table.now }
        ensures { IfSome result (IsBeyondBound (sample value128 self.entry.problem.now) self.entry.interval.now vertex.now outside.now) }
    {
        match self.table {
            Some(table) => beyond_bound(
                alloc,
                WholeProblem {
                    problem: self.problem,
                    table,
                },
                self.interval,
                vertex,
                outside,
            ),
            None => None,
        }
    }

    /// The tests of dual values outside of a finite end.
    pub(crate) fn lies_outside(
        self,
        alloc: Global,
        way: Way,
        vertex: &Vertex,
        outside: &List<Ratio>,
    ) -> bool
        requires { IsTableOf self.problem.now self.table.now }
        ensures { IsTrue result → (m : ℕ) → AreTrue (outside_tests (question self.entry) way m (values_of (question self.entry) vertex.now outside.now)) }
    {
        match self.statistic(alloc, vertex, outside) {
            Some(statistic) => way.sign().holds(statistic, Frac128::zero()),
            None => false,
        }
    }
}
