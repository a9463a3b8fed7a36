//! The laws of the regression in whole numbers, and of whole weights. No function here does anything: its
//! contract is the law.

ghost use Rattle.whole_model.specs.Laws.{DualsShowMinimumInIntegers, MixIsDualInIntegers, LossInIntegers, MinimisesInIntegers, DualsInIntegers, FullRankInIntegers, ListIsOver, HoldsInIntegers, ExactIntervalInIntegers};
ghost use Rattle.std.specs.Prelude.{ℕ, List};
ghost use Rattle.rational_laws.specs.Rational.{ℚ};
ghost use Rattle.whole_model.specs.Repeated.{Observation, WholeWeightsCount};

use frac_core::Exact;
use loss_model::Problem;

/// Dual values in whole numbers show a minimum, and those of two quantiles mix.
pub fn duality_in_integers()
    ensures minimum { DualsShowMinimumInIntegers }
    ensures mixed { MixIsDualInIntegers }
{}

/// A loss among fractions is one among whole numbers in other units. So what minimises, and what is
/// dual, among fractions is so among whole numbers, and the other way round: for the problem in
/// units of the product of all its denominators.
pub fn minima_in_integers<F: Exact>(problem: &Problem<F>)
    ensures loss { LossInIntegers F.value problem.now }
    ensures minimum { MinimisesInIntegers F.value problem.now }
    ensures dual { DualsInIntegers F.value problem.now }
{}

/// A problem has full rank among fractions exactly where it has among whole numbers, in units of the
/// product of all its denominators.
pub fn full_rank_in_integers<F: Exact>(problem: &Problem<F>)
    ensures { FullRankInIntegers F.value problem.now }
{}

/// A list of fractions is a vector of whole numbers over the product of its denominators.
pub fn vector_in_integers<F: Exact>(values: &[F])
    ensures { ListIsOver F.value values.now }
{}

/// A tested value of a coefficient holds among fractions exactly where it does among whole numbers, and
/// so the ends of a rank interval bound the values that hold there (Koenker 2005, section 3.5).
pub fn ranks_in_integers<F: Exact>(problem: &Problem<F>)
    ensures holds { HoldsInIntegers F.value problem.now }
    ensures exact { ExactIntervalInIntegers F.value problem.now }
{}

/// A record of a whole weight counts as so many records of weight 1: in the losses, and so in what
/// minimises.
pub fn whole_weights_count()
    ensures { (columns : ℕ) (records : List (ℕ × Observation)) (theta : ℚ) (b : ℕ → ℚ) → WholeWeightsCount columns records theta b }
{}
