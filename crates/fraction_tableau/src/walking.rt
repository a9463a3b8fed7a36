//! What fractions answer to a walk over quantiles.
ghost use Rattle.std.specs.Prelude.{◌<◌, IfOk, IfErr};
ghost use Rattle.rational_laws.specs.Fraction.{rational};
ghost use Rattle.rational_laws.specs.Rational.{ℚ};
ghost use Rattle.loss_model.specs.Problem.{sample};
ghost use Rattle.loss_model.specs.Quantities.{IsShortOf};
ghost use Rattle.pivot_model.specs.Duals.{HasCosts};
ghost use Rattle.walk_model.specs.Families.{over_quantiles, IsOptimalIn};
ghost use Rattle.walk_model.specs.Walks.{Crosses};
ghost use Rattle.walk_model.specs.WalkSpills.{IsSegmentEnd, IsStaySpill};
ghost use Rattle.tableau_model.specs.Places.{at_of, sample_of};
ghost use Rattle.tableau_model.specs.Questions.{walking};
ghost use Rattle.tableau_model.specs.Refusals.{IsRefusalAt, IsRefusedOf};
ghost use Rattle.tableau_model.specs.WalkAnswers.{IsOptimalFrom, IsWalkingAnswer, IsSegmentHere};
ghost use Rattle.fraction_tableau.specs.Kept.{place};
ghost use Rattle.fraction_tableau.specs.Views.{IsView, sample_at, rows_at, entries_at};
ghost use Rattle.fraction_tableau.specs.WalkingSteps.{IsStepAt, IsStepSpillAt};

use crate::ends::Ends;
use crate::fractions::{FractionTableau, failure};
use crate::view::BasisView;
use frac_core::Exact;
use loss_model::{Basis, Segment, Short, Vertex, widened};
use ratio::Ratio;
use tableau_model::{Breakpoint, Failure, WalkingStep, ascending};

impl<'a, F: Exact> BasisView<'a, F> {
    /// The step at a crossing, if it is below hi.
    fn step_at(&self, next: Breakpoint<F>, hi: F) -> Result<Option<WalkingStep<F>>, Short<F>>
        requires view { IsView F.value self.now }
        requires position { next.position < self.now.tableau.now.problem.columns }
        requires costs { HasCosts (sample_at F.value self.now) (rational (F.value hi)) }
        requires crosses { let p = sample_at F.value self.now in let at = rows_at F.value self.now in let a = entries_at F.value self.now in
            Crosses (over_quantiles p) at a (rational (F.value next.theta)) next.position next.direction }
        ensures step { IfOk result (IsStepAt F.value self.now next (rational (F.value hi))) }
        ensures spill { IfErr result (IsShortOf (IsStepSpillAt F.value F.range self.now next (rational (F.value hi)))) }
    {
        if !next.theta.compare(hi).is_lt() {
            return Ok(None);
        }
        let row = self.entering_at(next)?;
        Ok(Some(WalkingStep {
            theta: next.theta,
            position: next.position,
            row,
        }))
    }

    /// The walking step from `from` on that is left below hi, or none.
    fn step_from(&self, from: F, hi: F) -> Result<Option<WalkingStep<F>>, Short<F>>
        requires view { IsView F.value self.now }
        requires costs { HasCosts (sample_at F.value self.now) (rational (F.value hi)) }
        requires optimal { let p = sample_at F.value self.now in let at = rows_at F.value self.now in let a = entries_at F.value self.now in
            IsOptimalIn (over_quantiles p) at a (rational (F.value from)) }
        ensures step { IfOk result (IsWalkingAnswer F.value (place F.value self.now.tableau.now) (rational (F.value from)) (rational (F.value hi))) }
        ensures spill { let p = sample_at F.value self.now in let at = rows_at F.value self.now in let a = entries_at F.value self.now in
            IfErr result (IsShortOf (IsStaySpill F.value F.range p at a (rational (F.value from)) (rational (F.value hi)))) }
    {
        if !from.compare(hi).is_lt() {
            return Ok(None);
        }
        match self.first_crossing() {
            Ok(None) => Ok(None),
            Ok(Some(next)) => self.step_at(next, hi),
            Err(spill) => Err(Short::Overflow(spill)),
        }
    }
}

impl<'a, F: Exact> FractionTableau<'a, F> {
    /// The walking step that is left, with its refusal.
    fn next_walking(&self, from: F, hi: F) -> Result<Option<WalkingStep<F>>, Short<F>>
        requires costs { HasCosts (sample_of F.value (place F.value self.now)) (rational (F.value hi)) }
        requires optimal { IsOptimalFrom F.value (place F.value self.now) (rational (F.value from)) }
        ensures step { IfOk result (IsWalkingAnswer F.value (place F.value self.now) (rational (F.value from)) (rational (F.value hi))) }
        ensures spill { let h = place F.value self.now in
            IfErr result (IsShortOf (IsStaySpill F.value F.range (sample_of F.value h) (at_of h) h.inverse (rational (F.value from)) (rational (F.value hi)))) }
    {
        let solution = self.solution()?;
        let view = BasisView {
            tableau: self,
            solution: &solution,
        };
        view.step_from(from, hi)
    }

    /// The walking step from `from` on that is left below hi, or none.
    pub fn walking_step(&self, from: F, hi: F) -> Result<Option<WalkingStep<F>>, Failure<F>>
        requires costs { HasCosts (sample F.value self.now.problem) (rational (F.value hi)) }
        requires optimal { IsOptimalFrom F.value (place F.value self.now) (rational (F.value from)) }
        ensures step { IfOk result (IsWalkingAnswer F.value (place F.value self.now) (rational (F.value from)) (rational (F.value hi))) }
        ensures refused { IfErr result (IsRefusedOf (IsRefusalAt F.value F.range (place F.value self.now) (walking (rational (F.value from)) (rational (F.value hi))))) }
    {
        match self.next_walking(from, hi) {
            Ok(step) => Ok(step),
            Err(short) => Err(failure(short)),
        }
    }

    /// The segment of the basis, in fractions alone.
    fn stay(&self, from: F, to: F) -> Result<Segment, Short<F>>
        ensures segment { IfOk result (IsSegmentHere F.value (place F.value self.now) (rational (F.value from)) (rational (F.value to))) }
        ensures refused { let h = place F.value self.now in
            (hi : ℚ) → IsSegmentEnd (sample_of F.value h) (at_of h) h.inverse (rational (F.value from)) hi (rational (F.value to))
            → IfErr result (IsShortOf (IsStaySpill F.value F.range (sample_of F.value h) (at_of h) h.inverse (rational (F.value from)) hi)) }
    {
        let solution = self.solution()?;
        let sorted = ascending(self.alloc(), self.basis().rows.as_slice())?;
        // Lent again, since `self` is asked for more after it.
        let view = BasisView {
            tableau: &*self,
            solution: &solution,
        };
        let Ends { low, high } = view.ends_at(sorted.as_slice(), from, to)?;
        let coef = widened(self.alloc(), solution.coef.as_slice())?;
        let lo = Ratio::widen(self.alloc(), from)?;
        let hi = Ratio::widen(self.alloc(), to)?;
        Ok(Segment {
            lo,
            hi,
            vertex: Vertex {
                basis: Basis { rows: sorted },
                sides: solution.sides,
                coef,
            },
            basic_lo: low.basic,
            basic_hi: high.basic,
            loss_lo: low.loss,
            loss_hi: high.loss,
        })
    }

    /// The segment of the basis from one quantile to another. What is refused is refused to each walk of
    /// which this is a segment.
    pub fn segment(&self, from: F, to: F) -> Result<Segment, Failure<F>>
        ensures segment { IfOk result (IsSegmentHere F.value (place F.value self.now) (rational (F.value from)) (rational (F.value to))) }
        ensures refused { let h = place F.value self.now in
            (hi : ℚ) → IsSegmentEnd (sample_of F.value h) (at_of h) h.inverse (rational (F.value from)) hi (rational (F.value to))
            → IfErr result (IsRefusedOf (IsRefusalAt F.value F.range h (walking (rational (F.value from)) hi))) }
    {
        match self.stay(from, to) {
            Ok(segment) => Ok(segment),
            Err(short) => Err(failure(short)),
        }
    }
}
