//! The laws of the pivot rule. Each function does nothing: its contract is the law.

ghost use Rattle.pivot_model.specs.Laws.{StopIsOptimal, SomeRowEnters, RowsPassInOrder, StepIsUnique, StopHasNoStep, TrailIsUnique, EndedTrailIsUnique, ExchangeChangesResiduals, PerturbedIsResiduals, BasisHasFullRank, VertexIsOptimal, VertexIsUnique, PerturbedLossBegins, ChangeListIsChange, PerturbedCoefficientIsInverse};

use frac_core::Exact;
use loss_model::Problem;

/// A basis without a negative slope is optimal: its dual values are feasible and of equal cost with
/// its coefficients.
pub fn stop_is_optimal()
    ensures { StopIsOptimal }
{}

/// The rows that move towards 0 suffice to turn the slope, and they are passed in order.
pub fn line_search()
    ensures enters { SomeRowEnters }
    ensures order { RowsPassInOrder }
{}

/// A problem has one lawful trail.
pub fn one_trail<F: Exact>(theta: F)
    ensures step { StepIsUnique }
    ensures stop { StopHasNoStep }
    ensures trail { TrailIsUnique }
{}

/// Two lawful trails that have come to bases at which no step is left are one trail, to one basis.
pub fn one_lawful_trail<F: Exact>(theta: F)
    ensures { EndedTrailIsUnique }
{}

/// What an exchange does to the residuals, and so to every entry of the perturbed ones.
pub fn exchanged_residuals()
    ensures residuals { ExchangeChangesResiduals }
    ensures entries { PerturbedIsResiduals }
{}

/// A basis shows full rank, and its vertex is optimal where no slope is negative.
pub fn vertex_is_optimal<F: Exact>(problem: &Problem<F>)
    ensures rank { BasisHasFullRank }
    ensures optimal { VertexIsOptimal F.value problem.now }
{}

/// At a basis stands one vertex, with one list of dual values at a quantile.
pub fn one_vertex<F: Exact>(problem: &Problem<F>)
    ensures { VertexIsUnique F.value problem.now }
{}

/// What the lists of a perturbed loss are: the first begins with the loss, the second is its change, and
/// a perturbed coefficient has the inverse's entries.
pub fn perturbed_losses()
    ensures loss { PerturbedLossBegins }
    ensures change { ChangeListIsChange }
    ensures coefficient { PerturbedCoefficientIsInverse }
{}
