//! The law of the marks. The function computes nothing: its contract is the law.

ghost use Rattle.report_text.specs.Marks.{MarksAreScores};

use frac_core::Exact;
use loss_model::laws::rankscores_outside;
use loss_model::{Problem, Segment};

/// A data row that the report of a segment marks `1` has the rankscore 1 on the whole segment, and
/// one that it marks `0` has the rankscore 0.
pub fn marks_are_scores<F: Exact>(problem: &Problem<F>, data_rows: u32, segment: &Segment)
    ensures { MarksAreScores F.value problem.now data_rows segment.now }
{
    rankscores_outside(problem, &segment.vertex);
}
