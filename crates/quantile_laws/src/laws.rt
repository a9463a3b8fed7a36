//! The laws of quantile fits. No function here does anything: its contract is the law.

ghost use Rattle.quantile_laws.specs.Counts.{MinimumSplitsWeights, MinimumSplitsCounts, SidesSplitWeights, SidesSplitCounts};
ghost use Rattle.quantile_laws.specs.Equivariance.{ScaleEquivariance, DataRowsAreMirrored, SignEquivariance, NegativeEquivariance, ShiftEquivariance, DesignEquivariance, DualEquivariance, ResponsesMayMove, ResidualsMayStretch};
ghost use Rattle.quantile_laws.specs.Monotonicity.{LossIsAffine, LeastLossIsConcave, LeastLossIsOne, LeastLossIsContinuous, LossIsLine, SlopeFalls, SlopeFallsAlong, CentroidNeverFalls, CentroidNeverFallsAlong};
ghost use Rattle.quantile_laws.specs.Uniqueness.{DualsComplement, MinimaByDuals, InsideIsFitted, MinimumIsUnique, BetweenIsAtEnds, UniqueBetween, ScoreIsInside, ScoresAreInside, OthersLoseAsLittle};

use frac_core::Exact;

/// Dual values tell all coefficients that minimise. Where none of a basis is at a bound, no others lose as little, and strictly
/// between two quantiles where none is at one bound at both (Koenker 2005, section 2.2.2). Of data rows this is read off
/// their rankscores. Where one is at a bound, and only the basis is fitted exactly, others do.
pub fn unique_minimum()
    ensures complements { DualsComplement }
    ensures minima { MinimaByDuals }
    ensures fitted { InsideIsFitted }
    ensures unique { MinimumIsUnique }
    ensures others { OthersLoseAsLittle }
    ensures ends { BetweenIsAtEnds }
    ensures between { UniqueBetween }
    ensures score { ScoreIsInside }
    ensures scores { ScoresAreInside }
{}

/// Where there is an intercept, the observations below a fit weigh at most the part theta of all, and with those on it at least
/// that, whichever coefficients minimise; and so by the sides of a vertex (Koenker 2005, section 2.2.2).
pub fn split_by_quantile<F: Exact>()
    ensures weights { MinimumSplitsWeights }
    ensures counts { MinimumSplitsCounts }
    ensures side_weights { SidesSplitWeights F.value }
    ensures side_counts { SidesSplitCounts F.value }
{}

/// The least loss is concave in the quantile, affine along a segment, and without a jump from one to the next.
pub fn least_loss()
    ensures affine { LossIsAffine }
    ensures concave { LeastLossIsConcave }
    ensures one { LeastLossIsOne }
    ensures continuous { LeastLossIsContinuous }
    ensures line { LossIsLine }
    ensures slope { SlopeFalls }
    ensures falls { SlopeFallsAlong }
{}

/// At the centroid of the design the fit never falls as the quantile rises (Bassett and Koenker 1982).
pub fn centroid_never_falls()
    ensures between { CentroidNeverFalls }
    ensures along { CentroidNeverFallsAlong }
{}

/// Coefficients that minimise go with a change of the unit or the sign of the responses, of what is added to them, and of
/// the columns (Koenker and Bassett 1978; Koenker 2005, section 2.2.3).
pub fn equivariance()
    ensures scale { ScaleEquivariance }
    ensures mirrored { DataRowsAreMirrored }
    ensures sign { SignEquivariance }
    ensures negative { NegativeEquivariance }
    ensures shift { ShiftEquivariance }
    ensures design { DesignEquivariance }
    ensures duals { DualEquivariance }
{}

/// A fit stays as it is where each response stays on its side of it, however far it moves (Koenker 2005, chapter 2).
pub fn moved_responses()
    ensures moved { ResponsesMayMove }
    ensures stretched { ResidualsMayStretch }
{}
