//! The laws of integrals and of Wilcoxon scores. No function here does anything: its contract is the
//! law.

ghost use Rattle.rankscores.specs.Laws.{LineMixes, ScoresAreBounded, TrapezoidIsIntegral, WilcoxonIsBalanced, WilcoxonIsBounded, WilcoxonIsSum, WilcoxonSumsToZero};

use loss_model::laws::rankscore_bounds;

/// The integral of an affine function is the area of a trapezoid, and no other number is. At a mix
/// of two points an affine function is the mix of its values there.
pub fn affine_integrals()
    ensures trapezoid { TrapezoidIsIntegral }
    ensures mixes { LineMixes }
{}

/// The Wilcoxon score of a row is the sum of the trapezoids below its rankscore, minus 1/2.
pub fn wilcoxon_sum()
    ensures { WilcoxonIsSum }
{}

/// Rankscores lie in 0 to 1 along every segment, and Wilcoxon scores in -1/2 to 1/2.
pub fn score_bounds()
    ensures along { ScoresAreBounded }
    ensures wilcoxon { WilcoxonIsBounded }
{
    rankscore_bounds();
}

/// Wilcoxon scores are orthogonal to each column, and sum to 0 where the model has an intercept.
pub fn wilcoxon_balance()
    ensures orthogonal { WilcoxonIsBalanced }
    ensures zero { WilcoxonSumsToZero }
{}
