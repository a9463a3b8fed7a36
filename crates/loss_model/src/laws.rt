//! The laws of losses and dual values. No function here does anything: its contract is the law.

ghost use Rattle.loss_model.specs.FullRank.{DependenceRefutes};
ghost use Rattle.loss_model.specs.Greedy.{StartIsUnique};
ghost use Rattle.loss_model.specs.Laws.{WeakDuality, DualsShowMinimum, DualsAreGreatest, ComplementsShowDuals, ResidualsMove, SidesShowDuals, VertexIsDual, MixIsDual, IntervalIsMixes, MinimisesBetween, CoversEveryValue, RankscoresAreBounded, AboveScoresOne, BelowScoresZero, SidesAreScores};

use crate::problem::Problem;
use crate::vertex::Vertex;
use frac_core::Exact;
use ratio::Ratio;

/// Feasible dual values bound every loss from below, and where one of them is of equal cost with
/// coefficients, both are optimal (Koenker 2005, chapter 6).
pub fn duality()
    ensures weak { WeakDuality }
    ensures minimum { DualsShowMinimum }
    ensures greatest { DualsAreGreatest }
{}

/// Complementary slackness: feasible dual values that complement the residuals, or agree with their
/// sides, are of equal cost. Along a direction of the coefficients the residuals are affine.
pub fn complementary_slackness()
    ensures complements { ComplementsShowDuals }
    ensures sides { SidesShowDuals }
    ensures moved { ResidualsMove }
{}

/// The same at a vertex, with the dual values of its basic rows.
pub fn vertex_is_dual<F: Exact>(problem: &Problem<F>, vertex: &Vertex, basic: &[Ratio])
    ensures { VertexIsDual F.value problem.now vertex.now basic.now }
{}

/// Coefficients with dual values at two quantiles have the mixed dual values at every quantile
/// between, and minimise there.
pub fn optimal_between()
    ensures mixed { MixIsDual }
    ensures every { IntervalIsMixes }
    ensures minimum { MinimisesBetween }
{}

/// Segments that cover a range leave no gap.
pub fn covers_every_value()
    ensures { CoversEveryValue }
{}

/// The rankscore of a data row is at least 0 and at most 1.
pub fn rankscore_bounds()
    ensures { RankscoresAreBounded }
{}

/// The rankscore of a data row outside a basis: 1 on the side above the fit, and 0 on the one below.
pub fn rankscores_outside<F: Exact>(problem: &Problem<F>, vertex: &Vertex)
    ensures above { AboveScoresOne }
    ensures below { BelowScoresZero }
    ensures vertex { SidesAreScores F.value problem.now vertex.now }
{}

/// Columns of which a combination, not all of its factors 0, is 0 in every row haven't full rank.
pub fn dependence_refutes_full_rank()
    ensures { DependenceRefutes }
{}

/// After each number of rows there is one greedy start at most.
pub fn one_greedy_start()
    ensures { StartIsUnique }
{}
