//! The job `process`: the fit over the range, with the rank intervals that are asked for.
ghost use Rattle.std.specs.Prelude.{◌≡◌, ◌<◌, ◌≤◌, ◌^◌, is_some, length, true, IfOk, IfErr};
ghost use Rattle.report_text.specs.ReportText.{IsPrintable};
ghost use Rattle.report_text.specs.declared.report.Report.TheVariants as reports;
ghost use Rattle.rq_engine.specs.Asks.{IsFitAsk};
ghost use Rattle.rq_engine.specs.Answers.{HasFitCause, IsFitOfBytes};

use crate::fit::fit_input;
use report_text::{Fit, Halt};
use rq_fan::Gate;
use rq_input::read_input;
use rq_words::FitJob;
use std::alloc::Global;
use std::thread::Threads;

/// The fit over the range of a job, from the bytes of its input. `ranked` says that ranks or rank
/// intervals are asked for, which refuses smooths.
pub(crate) fn fit_bytes<R: Threads + Sync, G: Gate>(
    rt: &R,
    alloc: Global,
    job: &FitJob,
    ranked: bool,
    bytes: &[u8],
    gate: &G,
) -> Result<Fit, Halt>
    requires ask { IsFitAsk job.now }
    requires long { length job.now.formula < 2 ^ 31 }
    requires short { length bytes.now ≤ 2 ^ 26 }
    requires taken { is_some job.now.rank ≡ true → ranked ≡ true }
    ensures right { IfOk result (IsFitOfBytes job.now ranked bytes.now) }
    ensures printable { IfOk result (λ fit. IsPrintable (reports.Process fit)) }
    ensures cause { IfErr result (HasFitCause job.now ranked bytes.now) }
{
    match read_input(alloc, job, ranked, bytes) {
        Ok(input) => fit_input(rt, alloc, job, input, gate),
        Err(halt) => Err(halt),
    }
}
