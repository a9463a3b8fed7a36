//! The laws of minimality over ordered rings. No function here does anything: its contract is the law.

ghost use Rattle.real_laws.specs.RealLaws.{reals};
ghost use Rattle.real_laws.specs.Laws.{LossIsSame, DualsShowMinimumIn, MinimisesBetweenIn, MinimumIsUniqueIn, UniqueBetweenIn, RealsKeepOrder};

use crate::numbers::Numbers;

/// Coefficients in fractions of which dual values show that they minimise do so among all coefficients of every ordered
/// ring, and where they have dual values at two quantiles, at every quantile of the ring between these
/// (Koenker 2005, chapter 6).
pub fn minimum_everywhere<N: Numbers>()
    ensures same { LossIsSame N.ring }
    ensures minimum { DualsShowMinimumIn N.ring }
    ensures between { MinimisesBetweenIn N.ring }
{}

/// So they minimise among all vectors of real numbers, at every real quantile between the two.
pub fn minimum_over_reals()
    ensures same { LossIsSame reals }
    ensures minimum { DualsShowMinimumIn reals }
    ensures between { MinimisesBetweenIn reals }
    ensures order { RealsKeepOrder }
{}

/// Where no dual value of a basis is at a bound, no other coefficients of the ring lose as little; and none do strictly
/// between two quantiles where no row of a basis is at one bound at both.
pub fn unique_everywhere<N: Numbers>()
    ensures unique { MinimumIsUniqueIn N.ring }
    ensures between { UniqueBetweenIn N.ring }
    ensures real { MinimumIsUniqueIn reals }
    ensures real_between { UniqueBetweenIn reals }
{}
