//! The job `sample`: the fit of a generated table.
ghost use Rattle.std.specs.Prelude.{◌≡◌, false, IfOk, IfErr};
ghost use Rattle.rq_engine.specs.Answers.{HasFitCause, IsFitOfBytes};
ghost use Rattle.rq_engine.specs.Jobs.{sample_fit as sample_fit_of, sample_table};
ghost use Rattle.rq_engine.specs.SampleAsks.{IsSampleAsk};

use crate::process::fit_bytes;
use contrasts::Coding;
use frac_core::{OutOfMemory, Text};
use report_text::{Fit, Halt};
use rq_fan::Gate;
use rq_words::{FitJob, SampleJob};
use std::alloc::Global;
use std::thread::Threads;
use table_maker::make;

// The fit that the job asks for: the response on all other columns.
fn sample_fit(alloc: Global, job: &SampleJob) -> Result<FitJob, OutOfMemory>
    ensures { IfOk result (λ fit. fit ≡ sample_fit_of job.now) }
{
    let formula = Text::new(alloc, "y ~ .")?;
    Ok(FitJob {
        formula,
        lo: job.lo,
        hi: job.hi,
        weights: None,
        coding: Coding::Treatment,
        limit: job.limit,
        rank: None,
    })
}

/// The fit of the generated table over the range of a job. Its halts are those of the fit of any table.
pub(crate) fn fit_sample<R: Threads + Sync, G: Gate>(
    rt: &R,
    alloc: Global,
    job: &SampleJob,
    gate: &G,
) -> Result<Fit, Halt>
    requires ask { IsSampleAsk job.now }
    ensures right { IfOk result (IsFitOfBytes (sample_fit_of job.now) false (sample_table job.now)) }
    ensures cause { IfErr result (HasFitCause (sample_fit_of job.now) false (sample_table job.now)) }
{
    let fit_job = match sample_fit(alloc, job) {
        Ok(fit_job) => fit_job,
        Err(_) => return Err(Halt::OutOfMemory),
    };
    let table = match make(alloc, job.number, job.rows, job.columns) {
        Ok(table) => table,
        Err(_) => return Err(Halt::OutOfMemory),
    };
    match fit_bytes(rt, alloc, &fit_job, false, &table, gate) {
        Ok(fit) => Ok(fit),
        Err(halt) => Err(halt),
    }
}
