//! What is left at a basis on a walk, with the end that is handed out.
ghost use Rattle.std.specs.Prelude.{◌≡◌, ℕ, ◌<◌, ◌≤◌, length, slice_index, IfOk, IfErr};
ghost use Rattle.rational_laws.specs.Fraction.{rational};
ghost use Rattle.rational_laws.specs.Rational.{◌+ℚ◌, ◌*ℚ◌};
ghost use Rattle.frac_core.specs.Limits.{most_columns};
ghost use Rattle.loss_model.specs.Problem.{value_at, sample};
ghost use Rattle.loss_model.specs.Quantities.{IsShortOf};
ghost use Rattle.basis_inverse.specs.Square.{inverse_entry};
ghost use Rattle.pivot_model.specs.Results.{IsVertexAt};
ghost use Rattle.walk_model.specs.Families.{IsOptimalIn};
ghost use Rattle.fraction_tableau.specs.Next.{IsDualFault};
ghost use Rattle.rank_tableau.specs.declared.finding.Finding.TheVariants.{Past, Stuck};
ghost use Rattle.rank_inversion.specs.Courses.{parameter_at, family_of};
ghost use Rattle.rank_inversion.specs.Stations.{IsStation, sample_at, rows_at, entries_at};
ghost use Rattle.rank_inversion.specs.Nexts.{IsFound, IsSpillHere};
ghost use Rattle.rank_inversion.specs.Looks.{IsEndHere, IsNextAt, IsSpillAt};

use crate::course::Course;
use crate::station::Station;
use basic_solution::BasicSolution;
use frac_core::{Exact, List, OutOfMemory};
use fraction_tableau::{FractionTableau, duals_at};
use loss_model::{Basis, Beyond, Bound, End, Short, Vertex, widened};
use rank_tableau::{Finding, Next};
use ratio::Ratio;
use std::alloc::Global;
use tableau_model::{Breakpoint, ascending};

impl<'a, F: Exact> Station<'a, F> {
    /// The vertex of the basis.
    fn vertex(&self) -> Result<Vertex, OutOfMemory>
        requires station { IsStation F.value self.now }
        ensures { IfOk result (IsVertexAt F.value self.now.tableau.now.problem self.now.tableau.now.rows (entries_at F.value self.now)) }
    {
        let alloc = self.tableau.alloc();
        let rows = ascending(alloc, self.tableau.basis().rows.as_slice())?;
        let sides = List::copy(alloc, self.solution.sides.as_slice())?;
        let coef = widened(alloc, self.solution.coef.as_slice())?;
        Ok(Vertex {
            basis: Basis { rows },
            sides,
            coef,
        })
    }

    /// The end where the next breakpoint is beyond the bound.
    fn finite_end(&self, from: F, next: Breakpoint<F>) -> Result<End, Short<F>>
        requires station { IsStation F.value self.now }
        requires beyond { IsFound F.value self.now from (Past next) }
        ensures end { IfOk result (IsEndHere F.value self.now from) }
        ensures spill { IfErr result (IsShortOf (IsSpillHere F.value F.range self.now from)) }
    {
        let vertex = self.vertex()?;
        let inside = self.basic_values(vertex.basis.rows.as_slice(), from)?;
        let weight = self.course.way.turned(next.theta);
        let outside = self.basic_values(vertex.basis.rows.as_slice(), weight)?;
        let column = self.course.column;
        let coef = self.solution.coef.as_slice()[column as usize];
        let value = Ratio::widen(self.tableau.alloc(), coef)?;
        Ok(End {
            bound: Bound::Finite(value),
            vertex,
            inside,
            beyond: Beyond::Outside(outside),
        })
    }

    /// The end where the next breakpoint is within the bound, and no row moves there.
    fn endless(&self, from: F, next: Breakpoint<F>) -> Result<End, Short<F>>
        requires station { IsStation F.value self.now }
        requires stuck { IsFound F.value self.now from (Stuck next) }
        ensures end { IfOk result (IsEndHere F.value self.now from) }
        ensures spill { IfErr result (IsShortOf (IsSpillHere F.value F.range self.now from)) }
    {
        let _from = from;
        let vertex = self.vertex()?;
        let weight = self.course.way.turned(next.theta);
        let inside = self.basic_values(vertex.basis.rows.as_slice(), weight)?;
        let ray = self.ray(next.position)?;
        Ok(End {
            bound: Bound::Infinite,
            vertex,
            inside,
            beyond: Beyond::Ray(ray),
        })
    }

    /// What is left at the basis, which the walk entered where the column weighed so much.
    fn next(&self, from: F) -> Result<Next<F>, Short<F>>
        requires station { IsStation F.value self.now }
        requires optimal { IsOptimalIn (family_of F.value (sample_at F.value self.now) self.now.course) (rows_at F.value self.now) (entries_at F.value self.now) (parameter_at F.value self.now.course from) }
        ensures next { IfOk result (IsNextAt F.value self.now.tableau.now self.now.course from) }
        ensures spill { IfErr result (IsShortOf (IsSpillHere F.value F.range self.now from)) }
    {
        match self.found(from) {
            Ok(Finding::Step(step)) => Ok(Next::Step(step)),
            Ok(Finding::Past(next)) => {
                let end = self.finite_end(from, next)?;
                Ok(Next::End(end))
            }
            Ok(Finding::Stuck(next)) => {
                let end = self.endless(from, next)?;
                Ok(Next::End(end))
            }
            Err(short) => Err(short),
        }
    }
}

/// The dual values at the quantile of a walk by position, from a basic solution.
fn duals_of<F: Exact>(
    alloc: Global,
    solution: &BasicSolution<F>,
    course: &Course<F>,
) -> Result<List<F>, Short<F>>
    requires same { length solution.now.linear ≡ length solution.now.constant }
    requires few { length solution.now.constant ≤ most_columns }
    ensures size { IfOk result (λ made. length made ≡ length solution.now.constant) }
    ensures each { IfOk result (λ made. (j : ℕ) → j < length solution.now.constant → value_at F.value made j ≡ value_at F.value solution.now.constant j +ℚ (value_at F.value solution.now.linear j *ℚ rational (F.value course.now.tau))) }
    ensures spill { IfErr result (IsShortOf (IsDualFault F.value F.range (length solution.now.constant) (value_at F.value solution.now.constant) (value_at F.value solution.now.linear) (rational (F.value course.now.tau)))) }
{
    duals_at(
        alloc,
        solution.constant.as_slice(),
        solution.linear.as_slice(),
        course.tau,
    )
}

/// What is left at a basis, which a walk entered where the column weighed so much.
pub fn look<'a, F: Exact>(
    tableau: &FractionTableau<'a, F>,
    course: &Course<F>,
    from: F,
) -> Result<Next<F>, Short<F>>
    requires column { course.now.column < tableau.now.problem.columns }
    requires optimal { IsOptimalIn (family_of F.value (sample F.value tableau.now.problem) course.now) (slice_index tableau.now.rows) (inverse_entry F.value tableau.now.square) (parameter_at F.value course.now from) }
    ensures next { IfOk result (IsNextAt F.value tableau.now course.now from) }
    ensures spill { IfErr result (IsShortOf (IsSpillAt F.value F.range tableau.now course.now from)) }
{
    let solution = tableau.solution()?;
    let duals = duals_of(tableau.alloc(), &solution, course)?;
    let station = Station {
        tableau,
        solution,
        duals,
        course: *course,
    };
    station.next(from)
}
