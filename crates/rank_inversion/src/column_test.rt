//! The test of a column: its projection on the others, and the bound on the square of its statistic.
ghost use Rattle.std.specs.Prelude.{◌≡◌, ◌<◌, map, Some, IfOk, IfErr};
ghost use Rattle.rational_laws.specs.Fraction.{rational};
ghost use Rattle.loss_model.specs.Quantities.{IsShortOf};
ghost use Rattle.rank_model.specs.Restricted.{rank_bound};
ghost use Rattle.rank_inversion.specs.GramStops.{IsInverted, IsGramTrail, IsBoundSpill, IsTestSpill, IsTestStop};
ghost use Rattle.rank_inversion.specs.Tests.{IsTested};

use crate::gram::GramInverse;
use crate::projection::project;
use frac_core::{Exact, List, OutOfMemory};
use loss_model::{Problem, Quantity, Short, Site, Spill, Stop, Trail, minus_at, times_at, widened};
use ratio::Ratio;
use std::alloc::Global;

/// What is asked of a column: the quantile, and the critical value of the test.
#[derive(Clone, Copy)]
pub struct Asked<F> {
    pub column: u32,
    pub tau: F,
    pub crit: F,
}

/// The test of a column: the factors of the others that project it on them, and the greatest square of
/// its statistic that is within the critical value.
#[derive(Drop)]
pub struct RankTest<F> {
    pub factors: List<Ratio>,
    pub bound: F,
}

/// The bound: the critical value times tau times 1 - tau times the squared length that the projection
/// leaves (Koenker 2005, section 3.5).
fn bound_by<F: Exact>(asked: Asked<F>, length: F) -> Result<F, Spill<F>>
    ensures exact { IfOk result (λ b. rational (F.value b) ≡ rank_bound (rational (F.value asked.tau)) (rational (F.value asked.crit)) (rational (F.value length))) }
    ensures spill { IfErr result (IsBoundSpill F.value F.range (rational (F.value asked.tau)) (rational (F.value asked.crit)) (rational (F.value length))) }
{
    let site = Site::new(Quantity::Statistic, 1, 0, 0);
    let scaled = times_at(Site { term: 1, ..site }, asked.crit, asked.tau)?;
    let rest = minus_at(Site { term: 2, ..site }, F::one(), asked.tau)?;
    let product = times_at(Site { term: 3, ..site }, scaled, rest)?;
    let bound = times_at(Site { term: 4, ..site }, product, length)?;
    Ok(bound)
}

/// The projection and the bound.
fn measured<F: Exact>(
    alloc: Global,
    problem: &Problem<F>,
    gram: &GramInverse<F>,
    asked: Asked<F>,
) -> Result<RankTest<F>, Short<F>>
    requires gram { IsInverted F.value problem.now gram.now }
    requires within { asked.column < problem.now.columns }
    ensures tested { IfOk result (IsTested F.value problem.now asked) }
    ensures spill { IfErr result (IsShortOf (IsTestSpill F.value F.range problem.now asked.column (rational (F.value asked.tau)) (rational (F.value asked.crit)))) }
{
    let projected = project(alloc, problem, &gram.inverse, asked.column)?;
    let bound = match bound_by(asked, projected.length) {
        Ok(bound) => bound,
        Err(spill) => return Err(Short::Overflow(spill)),
    };
    let factors = widened(alloc, projected.factors.as_slice())?;
    Ok(RankTest { factors, bound })
}

/// The rows of a start in which every position holds one.
fn taken(alloc: Global, rows: &[u32]) -> Result<List<Option<u32>>, OutOfMemory>
    ensures { IfOk result (λ start. start ≡ map Some rows.now) }
{
    let mut start = List::new(alloc);
    for row in rows {
        start.add(Some(*row))?;
    }
    Ok(start)
}

/// The start of the Gram rows, without a step.
fn gram_trail<F: Exact>(
    alloc: Global,
    problem: &Problem<F>,
    gram: &GramInverse<F>,
) -> Result<Trail, OutOfMemory>
    requires gram { IsInverted F.value problem.now gram.now }
    ensures { IfOk result (IsGramTrail F.value problem.now) }
{
    let _problem = problem;
    let start = taken(alloc, gram.basis.rows.as_slice())?;
    Ok(Trail {
        start,
        steps: List::new(alloc),
        rise: List::new(alloc),
        fall: List::new(alloc),
    })
}

/// The stop of what is refused of the test.
fn test_stop<F: Exact>(
    alloc: Global,
    problem: &Problem<F>,
    gram: &GramInverse<F>,
    asked: Asked<F>,
    short: Short<F>,
) -> Stop<F>
    requires gram { IsInverted F.value problem.now gram.now }
    requires spill { IsShortOf (IsTestSpill F.value F.range problem.now asked.column (rational (F.value asked.tau)) (rational (F.value asked.crit))) short }
    ensures { IsTestStop F.value F.range problem.now asked.column (rational (F.value asked.tau)) (rational (F.value asked.crit)) result }
{
    let _asked = asked;
    match short {
        Short::OutOfMemory => Stop::OutOfMemory,
        Short::Overflow(spill) => match gram_trail(alloc, problem, gram) {
            Ok(trail) => Stop::Overflow { trail, spill },
            Err(_) => Stop::OutOfMemory,
        },
    }
}

/// Makes the test of a column by the inverse of the Gram matrix.
///
/// An overflow of the projection, of the squared length or of the bound carries the start of the Gram rows.
pub fn rank_test<F: Exact>(
    alloc: Global,
    problem: &Problem<F>,
    gram: &GramInverse<F>,
    asked: Asked<F>,
) -> Result<RankTest<F>, Stop<F>>
    requires gram { IsInverted F.value problem.now gram.now }
    requires within { asked.column < problem.now.columns }
    ensures tested { IfOk result (IsTested F.value problem.now asked) }
    ensures stopped { IfErr result (IsTestStop F.value F.range problem.now asked.column (rational (F.value asked.tau)) (rational (F.value asked.crit))) }
{
    match measured(alloc, problem, gram, asked) {
        Ok(test) => Ok(test),
        Err(short) => Err(test_stop(alloc, problem, gram, asked, short)),
    }
}
