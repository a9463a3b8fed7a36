//! The laws of steps and of rearrangements. No function here does anything: its contract is the law.

ghost use Rattle.predict_steps.specs.Laws.{RearrangementExists, RearrangementIsUnique, RisingStepsStay, StepsCover, TotalsStay};

use frac_core::Exact;
use loss_model::{Problem, Process};

/// Steps that cover a range have one rearrangement, which keeps the total length of each value. Steps
/// whose values never fall are their own.
pub fn rearrangement()
    ensures totals { TotalsStay }
    ensures exists { RearrangementExists }
    ensures unique { RearrangementIsUnique }
    ensures rising { RisingStepsStay }
{}

/// Where the segments of a process cover a range, so do the steps of a prediction along them.
pub fn cover<F: Exact>(problem: &Problem<F>, process: &Process)
    ensures { StepsCover F.value problem.now process.now.segments }
{}
