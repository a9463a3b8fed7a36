//! The job `ranks`: the fit over 0 to 1, and the Wilcoxon scores of its rows.
ghost use Rattle.std.specs.Prelude.{◌≡◌, length, IfOk, IfErr, ◌<◌, ◌≤◌, ◌^◌, true};
ghost use Rattle.rq_input.specs.Rows.{HasRows};
ghost use Rattle.rq_engine.specs.Asks.{IsUnitAsk};
ghost use Rattle.rq_engine.specs.Ranks.{AreRanksOf};
ghost use Rattle.rq_engine.specs.Stops.{HasProblemCause};
ghost use Rattle.rq_engine.specs.Answers.{AreRanksOfBytes, HasFitCause};

use crate::fit::fit_input;
use frac_core::OutOfMemory;
use rankscores::wilcoxon;
use ratio::all_lowest;
use report_text::{Halt, RanksFit};
use rq_fan::Gate;
use rq_input::{Input, read_input};
use rq_words::FitJob;
use std::alloc::Global;
use std::thread::Threads;

/// The fit of an input without penalty rows over 0 to 1, and its Wilcoxon scores (Gutenbrunner and
/// Jurečková 1992).
///
/// Its halts are those of the fit: an input whose fit is answered has scores, of any size.
pub(crate) fn ranks_input<R: Threads + Sync, G: Gate>(
    rt: &R,
    alloc: Global,
    job: &FitJob,
    input: Input,
    gate: &G,
) -> Result<RanksFit, Halt>
    requires ask { IsUnitAsk job.now }
    requires rows { HasRows input }
    requires unpenalised { length input.smoothing.rows ≡ 0 }
    ensures right { IfOk result (AreRanksOf job.now input) }
    ensures cause { IfErr result (HasProblemCause job.now (length input.design.rows) input.problem) }
{
    let fit = match fit_input(rt, alloc, job, input, gate) {
        Ok(fit) => fit,
        Err(halt) => return Err(halt),
    };
    match wilcoxon(alloc, &fit.problem, &fit.process) {
        Ok(wilcoxon) => {
            all_lowest(wilcoxon.as_slice());
            Ok(RanksFit { fit, wilcoxon })
        }
        Err(OutOfMemory) => Err(Halt::OutOfMemory),
    }
}

/// The Wilcoxon scores over 0 to 1, from the bytes of a job's input. They are refused only where the fit is.
pub(crate) fn ranks_bytes<R: Threads + Sync, G: Gate>(
    rt: &R,
    alloc: Global,
    job: &FitJob,
    bytes: &[u8],
    gate: &G,
) -> Result<RanksFit, Halt>
    requires ask { IsUnitAsk job.now }
    requires long { length job.now.formula < 2 ^ 31 }
    requires short { length bytes.now ≤ 2 ^ 26 }
    ensures right { IfOk result (AreRanksOfBytes job.now bytes.now) }
    ensures cause { IfErr result (HasFitCause job.now true bytes.now) }
{
    match read_input(alloc, job, true, bytes) {
        Ok(input) => ranks_input(rt, alloc, job, input, gate),
        Err(halt) => Err(halt),
    }
}
