//! The inverse of the Gram matrix of the weighted columns.
ghost use Rattle.std.specs.Prelude.{ℕ, ◌<◌, length, IfOk, IfErr};
ghost use Rattle.loss_model.specs.Dual.{IsDataRow};
ghost use Rattle.loss_model.specs.FullRank.{HasFullRank};
ghost use Rattle.loss_model.specs.Problem.{sample, IsWellShaped};
ghost use Rattle.loss_model.specs.Quantities.{IsShortOf};
ghost use Rattle.loss_model.specs.StartStop.{IsStartStop};
ghost use Rattle.rank_model.specs.Gram.{IsGramOf};
ghost use Rattle.rank_inversion.specs.Grams.{IsBeforeGram};
ghost use Rattle.rank_inversion.specs.GramStops.{IsInverted, IsGramStop};

use basis_inverse::{Inverse, start};
use frac_core::{Exact, List};
use gram_matrix::gram_problem;
use loss_model::{Basis, Problem, Short, Stop, Trail};
use rank_model::laws;
use std::alloc::Global;
use whole_rows::greedy_start;

/// The inverse of the Gram matrix of the weighted columns of a problem, by which every column is projected
/// on the others; and the greedy start of its rows, by position.
#[derive(Drop)]
pub struct GramInverse<F: Exact> {
    pub inverse: Inverse<F>,
    pub basis: Basis,
}

/// The stop of what is refused before the Gram matrix stands, with a trail whose lists are empty.
fn early_stop<F: Exact>(alloc: Global, problem: &Problem<F>, short: Short<F>) -> Stop<F>
    requires { IsShortOf (IsBeforeGram F.value F.range (sample F.value problem.now)) short }
    ensures { IsGramStop F.value F.range problem.now result }
{
    let _problem = problem;
    match short {
        Short::OutOfMemory => Stop::OutOfMemory,
        Short::Overflow(spill) => Stop::Overflow {
            trail: Trail {
                start: List::new(alloc),
                steps: List::new(alloc),
                rise: List::new(alloc),
                fall: List::new(alloc),
            },
            spill,
        },
    }
}

/// The stop of the start of a problem that hasn't full rank.
fn own_stop<F: Exact>(alloc: Global, problem: &Problem<F>) -> Stop<F>
    requires shaped { IsWellShaped problem.now }
    requires dependent { ¬ HasFullRank (sample F.value problem.now) }
    ensures { IsStartStop F.value F.range problem.now result }
{
    match start(alloc, problem) {
        Ok(_) => unreachable!(),
        Err(stop) => stop,
    }
}

/// The stop of the Gram rows' start as that of the problem; where they are dependent, the columns are.
fn gram_stop<F: Exact>(
    alloc: Global,
    problem: &Problem<F>,
    gram: &Problem<F>,
    stop: Stop<F>,
) -> Stop<F>
    requires shaped { IsWellShaped problem.now }
    requires data { (i : ℕ) → i < length problem.now.rows → IsDataRow (sample F.value problem.now) i }
    requires gram { IsGramOf (sample F.value problem.now) (sample F.value gram.now) }
    requires stop { IsStartStop F.value F.range gram.now stop }
    ensures { IsGramStop F.value F.range problem.now result }
{
    let _gram = gram;
    match stop {
        Stop::Dependent { combination } => {
            let _combination = combination;
            own_stop(alloc, problem)
        }
        Stop::OutOfMemory => Stop::OutOfMemory,
        Stop::Overflow { trail, spill } => Stop::Overflow { trail, spill },
        Stop::PivotLimit { limit, trail } => Stop::PivotLimit { limit, trail },
    }
}

/// Inverts the Gram matrix of the weighted columns, by the greedy start of its rows, which are taken in
/// order (normal equations of weighted least squares).
///
/// The start is made in whole numbers, whose numerators stay as short as the determinants of the matrix, and where these
/// refuse, as with an entry of more than 64 bits, in fractions, whose entries under way may be far wider than those of the
/// inverse. An overflow of a weighted entry or of an entry of the matrix carries a trail whose lists are empty, one of
/// the start of the Gram rows the start that was reached. `Dependent` comes where the columns are dependent.
pub fn gram_inverse<F: Exact>(
    alloc: Global,
    problem: &Problem<F>,
) -> Result<GramInverse<F>, Stop<F>>
    requires shaped { IsWellShaped problem.now }
    requires data { (i : ℕ) → i < length problem.now.rows → IsDataRow (sample F.value problem.now) i }
    ensures inverted { IfOk result (IsInverted F.value problem.now) }
    ensures stopped { IfErr result (IsGramStop F.value F.range problem.now) }
{
    laws::gram_inverse();
    let gram = match gram_problem(alloc, problem) {
        Ok(gram) => gram,
        Err(short) => return Err(early_stop(alloc, problem, short)),
    };
    match greedy_start(alloc, &gram) {
        Ok(started) => Ok(GramInverse {
            inverse: started.inverse,
            basis: started.basis,
        }),
        Err(stop) => Err(gram_stop(alloc, problem, &gram, stop)),
    }
}
