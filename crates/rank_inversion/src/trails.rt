//! An interval of a solve and of both walks from it, and its trail.
ghost use Rattle.std.specs.Prelude.{◌≡◌, IfOk};
ghost use Rattle.rank_inversion.specs.Trails.{joined, with_walks};

use crate::column_test::Asked;
use frac_core::{Exact, List, OutOfMemory};
use loss_model::{Exchange, Interval, Trail};
use rank_tableau::Arrival;
use ratio::Ratio;
use std::alloc::Global;

/// The trail of a solve, without walks.
#[derive(Drop)]
struct SolveTrail {
    start: List<Option<u32>>,
    steps: List<Exchange>,
}

/// What an interval has before its walks.
#[derive(Drop)]
struct Head {
    tau: Ratio,
    crit: Ratio,
    trail: SolveTrail,
}

/// A step once more.
fn again(alloc: Global, step: &Exchange) -> Result<Exchange, OutOfMemory>
    ensures { IfOk result (λ x. x ≡ step.now) }
{
    let theta = step.theta.copy(alloc)?;
    Ok(Exchange {
        theta,
        position: step.position,
        row: step.row,
    })
}

/// The same steps once more.
fn copied(alloc: Global, steps: &[Exchange]) -> Result<List<Exchange>, OutOfMemory>
    ensures { IfOk result (λ made. made ≡ steps.now) }
{
    let mut made = List::new(alloc);
    for step in steps {
        let copy = again(alloc, step)?;
        made.add(copy)?;
    }
    Ok(made)
}

/// The trail of a solve once more.
fn solve_trail(alloc: Global, solve: &Trail) -> Result<SolveTrail, OutOfMemory>
    ensures start { IfOk result (λ t. t.start ≡ solve.now.start) }
    ensures steps { IfOk result (λ t. t.steps ≡ solve.now.steps) }
{
    let start = List::copy(alloc, solve.start.as_slice())?;
    let steps = copied(alloc, solve.steps.as_slice())?;
    Ok(SolveTrail { start, steps })
}

/// The trail of a solve, with the steps of both walks.
pub(crate) fn with_walks(
    alloc: Global,
    solve: &Trail,
    rise: List<Exchange>,
    fall: List<Exchange>,
) -> Result<Trail, OutOfMemory>
    ensures { IfOk result (λ t. t ≡ with_walks solve.now rise fall) }
{
    match solve_trail(alloc, solve) {
        Ok(SolveTrail { start, steps }) => Ok(Trail {
            start,
            steps,
            rise,
            fall,
        }),
        Err(_) => {
            drop(rise);
            drop(fall);
            Err(OutOfMemory)
        }
    }
}

/// What is asked, and the trail of the solve.
fn head_of<F: Exact>(alloc: Global, solve: &Trail, asked: Asked<F>) -> Result<Head, OutOfMemory>
    ensures tau { IfOk result (λ h. h.tau ≡ F.value asked.tau) }
    ensures crit { IfOk result (λ h. h.crit ≡ F.value asked.crit) }
    ensures start { IfOk result (λ h. h.trail.start ≡ solve.now.start) }
    ensures steps { IfOk result (λ h. h.trail.steps ≡ solve.now.steps) }
{
    let tau = Ratio::widen(alloc, asked.tau)?;
    let crit = Ratio::widen(alloc, asked.crit)?;
    let trail = solve_trail(alloc, solve)?;
    Ok(Head { tau, crit, trail })
}

/// The interval of both walks, which lists the factors of its projection.
pub(crate) fn joined<F: Exact>(
    alloc: Global,
    solve: &Trail,
    asked: Asked<F>,
    factors: List<Ratio>,
    rise: Arrival,
    fall: Arrival,
) -> Result<Interval, OutOfMemory>
    ensures { IfOk result (λ r. r ≡ joined F.value solve.now asked factors rise fall) }
{
    let Head { tau, crit, trail } = match head_of(alloc, solve, asked) {
        Ok(head) => head,
        Err(_) => {
            drop(factors);
            drop(rise);
            drop(fall);
            return Err(OutOfMemory);
        }
    };
    Ok(Interval {
        column: asked.column,
        tau,
        crit,
        low: fall.end,
        high: rise.end,
        projection: Some(factors),
        trail: Trail {
            start: trail.start,
            steps: trail.steps,
            rise: rise.steps,
            fall: fall.steps,
        },
    })
}
