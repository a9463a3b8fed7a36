//! The laws of the order. Each function does nothing: its contract is the law.

ghost use Rattle.basis_model.specs.Laws.{LessAtFirstDifference, LessIsTransitive, LessIsOneWay, PerturbedIsNotZero, RatiosAreOrdered};

/// Lists are compared at the first entry that differs, which is a strict order.
pub fn lexicographic_order()
    ensures first_difference { LessAtFirstDifference }
    ensures transitive { LessIsTransitive }
    ensures one_way { LessIsOneWay }
{}

/// Perturbed residuals are never 0, and the perturbed ratios of different rows are never equal.
pub fn perturbed_order()
    ensures signed { PerturbedIsNotZero }
    ensures total { RatiosAreOrdered }
{}
