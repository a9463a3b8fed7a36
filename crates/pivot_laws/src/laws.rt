//! The laws on the number of pivots. Each function does nothing: its contract is the law.

ghost use Rattle.pivot_laws.specs.Choose.{AtMostChoose};
ghost use Rattle.pivot_laws.specs.ImprovingTrails.{LossAfterStep, LossFalls, SolveImproves, ProcessImproves, IntervalImproves};
ghost use Rattle.pivot_laws.specs.BoundLaws.{NoneTwiceInSolve, NoneTwiceInProcess, NoneTwiceInInterval, SolveIsShort, ProcessIsShort, SolveWithinLimit, ProcessWithinLimit, IntervalWithinLimit};

use frac_core::Exact;

/// Different sets of n out of m rows are at most m choose n (Pascal's rule).
pub fn at_most_choose()
    ensures { AtMostChoose }
{}

/// A solving step lowers the perturbed loss (Barrodale and Roberts 1973; Charnes 1952).
pub fn solving_step()
    ensures after { LossAfterStep }
    ensures falls { LossFalls }
{}

/// So each step of a lawful trail improves a list: a solving step the perturbed loss, a step of a process
/// its change list, and a step of `rise` or `fall` the perturbed coefficient.
pub fn improving_trails<F: Exact>(theta: F)
    ensures solve { SolveImproves }
    ensures process { ProcessImproves }
    ensures interval { IntervalImproves }
{}

/// So no basis comes twice in one part of a lawful trail.
pub fn no_basis_twice<F: Exact>(theta: F)
    ensures solve { NoneTwiceInSolve }
    ensures process { NoneTwiceInProcess }
    ensures interval { NoneTwiceInInterval }
{}

/// So no lawful trail is longer than the bases of its parts, and none reaches a limit of so many steps.
pub fn pivot_bound<F: Exact>(theta: F)
    ensures short_solve { SolveIsShort }
    ensures short_process { ProcessIsShort }
    ensures solve { SolveWithinLimit }
    ensures process { ProcessWithinLimit }
    ensures interval { IntervalWithinLimit }
{}
