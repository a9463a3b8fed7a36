//! The laws of rank intervals. Each function does nothing: its contract is the law.
//!
//! They stand in this order: optimal dual values of the restricted problem, projections and the Gram
//! matrix, what walks keep, the ends that they leave, and what a certificate shows.

ghost use Rattle.rank_model.specs.Laws.{ComplementaryIsOptimal, StatisticFalls, OptimalBetween, RisingRay, FallingRay, OneLength, FitIsInside, BoundIsNotNegative, WalkBegins, RiseGoesOn, FallGoesOn, RiseIsEndless, FallIsEndless, ExactInterval, NothingBeyond, AllAreWithin, EndsAreInOrder, ProjectionByEntries, DataRowsHaveWeights};
ghost use Rattle.rank_model.specs.Shown.{HighConditionsShow, LowConditionsShow};
ghost use Rattle.rank_model.specs.Certified.{ConditionsShowInterval, BoundsByBasics};
ghost use Rattle.rank_model.specs.Gram.{GramInverseProjects, GramDependence, GramKeepsRank, GramStartsInOrder};

use frac_core::Exact;
use loss_model::{IntervalProof, Problem};

/// Where dual values are optimal for a tested value, and that their statistic falls as it rises
/// (Gutenbrunner, Jurečková, Koenker and Portnoy 1993).
pub fn optimal_values()
    ensures complementary { ComplementaryIsOptimal }
    ensures falls { StatisticFalls }
    ensures between { OptimalBetween }
{}

/// Dual values that complement a ray stay optimal along it, with the least or the greatest statistic.
pub fn optimal_along_rays()
    ensures rising { RisingRay }
    ensures falling { FallingRay }
{}

/// The length that a projection leaves is one number, whichever projection it is.
pub fn one_length()
    ensures one { OneLength }
    ensures entries { ProjectionByEntries }
    ensures weights { DataRowsHaveWeights }
{}

/// The inverse of the Gram matrix of the weighted columns gives the projection of one column on the
/// others, and the columns are dependent where their Gram rows are.
pub fn gram_inverse()
    ensures projects { GramInverseProjects }
    ensures dependence { GramDependence }
    ensures rank { GramKeepsRank }
    ensures order { GramStartsInOrder }
{}

/// What a walk of an interval keeps, from its begin to its end.
pub fn walks_of_intervals()
    ensures bound { BoundIsNotNegative }
    ensures solved { FitIsInside }
    ensures begins { WalkBegins }
    ensures rises { RiseGoesOn }
    ensures falls { FallGoesOn }
    ensures endless { RiseIsEndless }
    ensures endless_below { FallIsEndless }
{}

/// The two walks leave exactly the values that hold (Koenker 2005, section 3.5).
pub fn exact_interval()
    ensures exact { ExactInterval }
    ensures order { EndsAreInOrder }
{}

/// What the ends of a certificate show.
pub fn shown_interval()
    ensures beyond { NothingBeyond }
    ensures within { AllAreWithin }
    ensures high { HighConditionsShow }
    ensures low { LowConditionsShow }
{}

/// An interval that meets its conditions shows which values hold; and its dual values are within their
/// bounds where those of the basic rows are.
pub fn certified_interval<F: Exact>(problem: &Problem<F>, proof: &IntervalProof)
    ensures shows { ConditionsShowInterval F.value problem.now proof.now }
    ensures bounds { BoundsByBasics F.value problem.now }
{}
