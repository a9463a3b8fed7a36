//! The law of penalties. The function does nothing: its contract is the law.

ghost use Rattle.tv_penalty.specs.Variation.{PenaltyIsVariation};

/// The penalty of a coefficient vector is lambda times the total variation of the slope of the
/// piecewise linear function through the knots, added over the smooths of a formula (Koenker, Ng and
/// Portnoy 1994). No lambda is negative.
pub fn penalty_is_variation()
    ensures { PenaltyIsVariation }
{}
