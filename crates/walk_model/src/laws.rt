//! The laws of walks. Each function does nothing: its contract is the law.
//!
//! They stand in this order: slopes, between breakpoints, the joint of two bases, why a walk never
//! sticks, that there is one walk, what it covers, walks of a tested value, and what steps improve.

ghost use Rattle.walk_model.specs.SlopeLaws.{SlopeIsAffine, CrossingIsQuotient, CrossingAsComputed, SlopeAsComputed, QuantilesAsSolved, CostsBetween};
ghost use Rattle.walk_model.specs.BreakLaws.{NextBreakOrNone, NextBreakAsComputed, NoneBeforeNext, OptimalToBreak};
ghost use Rattle.walk_model.specs.JointLaws.{ListIsExchanged, NextIsBasis, SidesStay, DualsStay, OptimalStays, BasisComplements, JointComplementsBoth, CoefficientsChange, ResidualsChange, TotalsChange};
ghost use Rattle.walk_model.specs.EntryLaws.{FirstMoverOrNone, SomeRowMoves, WalkNeverSticks, EndIsReached};
ghost use Rattle.walk_model.specs.TrailLaws.{StepsMore, WalkingStepIsUnique, ProcessTrailIsUnique, IntervalTrailIsUnique};
ghost use Rattle.walk_model.specs.CoverLaws.{WalkCovers, WalkBegins, WalkGoesOn, WalkIsDone};
ghost use Rattle.walk_model.specs.TestedLaws.{TestedAsSolved, TestedValues, TestedWeights, TestedBreakIsThere, TestedEnd, StuckIsRay};
ghost use Rattle.walk_model.specs.ImprovingLaws.{ChangeListFalls, CoefficientMoves, NoBasisTwice};

use frac_core::Exact;
use loss_model::Problem;

/// Slopes are affine in the parameter (Koenker and d'Orey 1987), and a crossing is a quotient of their
/// parts, as it is computed. Over quantiles they are those of the pivot at one quantile.
pub fn slopes()
    ensures affine { SlopeIsAffine }
    ensures crossing { CrossingIsQuotient }
    ensures computed { CrossingAsComputed }
    ensures parts { SlopeAsComputed }
    ensures quantiles { QuantilesAsSolved }
    ensures costs { CostsBetween }
{}

/// There is a next breakpoint or none at all, and up to it an optimal basis stays optimal (Koenker and
/// d'Orey 1987).
pub fn between_breakpoints()
    ensures next { NextBreakOrNone }
    ensures computed { NextBreakAsComputed }
    ensures none { NoneBeforeNext }
    ensures optimal { OptimalToBreak }
{}

/// Where a row has entered there stands a basis again.
pub fn next_basis()
    ensures list { ListIsExchanged }
    ensures basis { NextIsBasis }
{}

/// Where the first row that moves has entered, all rows that stay outside keep their sides, every dual
/// value stays, and so the basis is optimal: ties are broken as Charnes (1952) does.
pub fn joint()
    ensures sides { SidesStay }
    ensures duals { DualsStay }
    ensures optimal { OptimalStays }
{}

/// The dual values of a basis complement its coefficients, and those of a joint the coefficients before
/// and after it (complementary slackness; Koenker 2005, chapter 6).
pub fn complements()
    ensures basis { BasisComplements }
    ensures joint { JointComplementsBoth }
{}

/// What an exchange changes in the coefficients and the residuals, and a joint in the totals: for code
/// that updates them.
pub fn changes()
    ensures coefficients { CoefficientsChange }
    ensures residuals { ResidualsChange }
    ensures totals { TotalsChange }
{}

/// One of the rows that move is the first. Over quantiles one moves as long as the range goes on, so a
/// walk never sticks before its end.
pub fn never_sticks()
    ensures first { FirstMoverOrNone }
    ensures moves { SomeRowMoves }
    ensures goes_on { WalkNeverSticks }
    ensures ends { EndIsReached }
{}

/// A walk goes on with a walking step.
pub fn longer_walk<F: Exact>(theta: F)
    ensures { StepsMore }
{}

/// At a basis there is one walking step at most, and so a process, and an interval, has one lawful
/// trail.
pub fn one_walk<F: Exact>(theta: F)
    ensures step { WalkingStepIsUnique }
    ensures process { ProcessTrailIsUnique }
    ensures interval { IntervalTrailIsUnique }
{}

/// The segments of a walk over quantiles cover its range with optimal ends, and where two meet every
/// row has one dual value (Koenker and d'Orey 1987).
pub fn walk_covers<F: Exact>(problem: &Problem<F>)
    ensures { WalkCovers F.value problem.now }
{}

/// The same walk as a loop: how it begins, goes on and is done.
pub fn walk_as_loop<F: Exact>(problem: &Problem<F>)
    ensures begins { WalkBegins F.value problem.now }
    ensures goes_on { WalkGoesOn F.value problem.now }
    ensures done { WalkIsDone F.value problem.now }
{}

/// For a tested value: where its walks begin, what their dual values are, and what these weigh, as in
/// the inversion of a rank test (Koenker 2005, section 3.5).
pub fn tested_values()
    ensures begins { TestedAsSolved }
    ensures values { TestedValues }
    ensures weights { TestedWeights }
{}

/// Where a walk of a tested value ends: at a breakpoint that is out of reach, or with a ray.
pub fn tested_ends()
    ensures there { TestedBreakIsThere }
    ensures end { TestedEnd }
    ensures ray { StuckIsRay }
{}

/// What a walking step improves where every response is perturbed (Charnes 1952): the change list, or
/// the coefficient of the tested column. So no basis comes twice in a walk.
pub fn improving_steps<F: Exact>(theta: F)
    ensures quantiles { ChangeListFalls }
    ensures tested { CoefficientMoves }
    ensures none_twice { NoBasisTwice }
{}
