//! The scores of a segment's basic rows.
ghost use Rattle.std.specs.Prelude.{◌≢◌, ℕ, ◌<◌, IfOk, pos};
ghost use Rattle.rational_laws.specs.Rational.{whole};
ghost use Rattle.loss_model.specs.Problem.{sample};
ghost use Rattle.rankscores.specs.Scores.{IsScorable, IsScored};

use crate::pair::{ScorePair, score_pair};
use frac_core::{Exact, List, OutOfMemory};
use loss_model::{Problem, Segment};
use std::alloc::Global;

/// The rankscores of the basic rows of a segment, ascending, at both of its ends: the dual value over
/// the weight, plus 1, minus the quantile. Of a row from `data_rows` on it gives the dual values.
///
/// The rows below `data_rows` are data rows of positive weight. It refuses only for memory.
pub fn scores<F: Exact>(
    alloc: Global,
    problem: &Problem<F>,
    data_rows: u32,
    segment: &Segment,
) -> Result<List<ScorePair>, OutOfMemory>
    requires scorable { IsScorable problem.now segment.now }
    requires weighted { (i : ℕ) → i < data_rows → (sample F.value problem.now).up1 i ≢ whole (pos 0) }
    ensures { IfOk result (IsScored F.value problem.now data_rows segment.now) }
{
    let mut pairs = List::new(alloc);
    for place in 0..segment.vertex.basis.rows.as_slice().len() {
        let pair = score_pair(alloc, problem, data_rows, segment, place)?;
        pairs.add(pair)?;
    }
    Ok(pairs)
}
