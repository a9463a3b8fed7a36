//! The laws of the walks of an interval. Each function does nothing: its contract is the law.

ghost use Rattle.rank_walk_model.specs.RankWalks.{WalkStandsFirst, WalkStandsNext, WalkIsInside, WalkHasBreak, WalkEndsHere, WalkNeverEnds, WalksAreExact};
ghost use Rattle.rank_walk_model.specs.Crossings.{CrossingByEntry};
ghost use Rattle.rank_walk_model.specs.Intervals.{LawfulWalkStands, LawfulIntervalIsExact, WrittenIntervalPasses, ListedIntervalIsCertified};
ghost use Rattle.rank_walk_model.specs.Loops.{LoopBegins, LoopGoesOn, LoopIsDone};
ghost use Rattle.rank_walk_model.specs.Ends.{EndIsRight, EndMeetsConditions};

use frac_core::Exact;
use loss_model::{Interval, Problem};

/// A walk of an interval stands at each of its bases such that all values up to it hold, and at its
/// end it leaves the end of the interval.
pub fn walks()
    ensures first { WalkStandsFirst }
    ensures next { WalkStandsNext }
    ensures inside { WalkIsInside }
    ensures goes_on { WalkHasBreak }
    ensures finite { WalkEndsHere }
    ensures infinite { WalkNeverEnds }
    ensures exact { WalksAreExact }
{}

/// What a walk hands out at its end is the end of the interval on its side, and meets the conditions
/// that a certificate states.
pub fn handed_out<F: Exact>(problem: &Problem<F>)
    ensures right { EndIsRight F.value problem.now }
    ensures conditions { EndMeetsConditions F.value problem.now }
{}

/// A breakpoint of a walk, by what the column is to weigh: a quotient by one entry of the inverse.
pub fn crossings()
    ensures { CrossingByEntry }
{}

/// An interval whose trail is lawful and whose ends are those of its walks bounds exactly the values
/// that hold; and where it lists the factors of its projection, it meets the conditions of a certificate with them.
pub fn lawful_interval<F: Exact>(problem: &Problem<F>, interval: &Interval)
    ensures stands { LawfulWalkStands }
    ensures exact { LawfulIntervalIsExact F.value problem.now interval.now }
    ensures passes { WrittenIntervalPasses F.value problem.now interval.now }
    ensures listed { ListedIntervalIsCertified F.value problem.now interval.now }
{}

/// A walk as a loop: how it begins, goes on and is done.
pub fn walk_as_loop<F: Exact>(problem: &Problem<F>)
    ensures begins { LoopBegins F.value problem.now }
    ensures goes_on { LoopGoesOn F.value problem.now }
    ensures done { LoopIsDone F.value problem.now }
{}
