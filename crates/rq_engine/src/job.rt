//! A job and its report.
ghost use Rattle.std.specs.Prelude.{◌≤◌, ◌^◌, ℕ, List, length, IfOk, IfErr};
ghost use Rattle.report_text.specs.ReportText.{IsPrintable};
ghost use Rattle.rq_engine.specs.Answers.{HasCause, IsRight};
ghost use Rattle.rq_engine.specs.Jobs.{IsJobOf};

use crate::certify::certify_bytes;
use crate::check::check_bytes;
use crate::path::path_bytes;
use crate::predict::predict_bytes;
use crate::process::fit_bytes;
use crate::ranks::ranks_bytes;
use crate::sample::fit_sample;
use crate::test::test_bytes;
use report_text::{Halt, Report};
use rq_fan::Gate;
use rq_words::Job;
use std::alloc::Global;
use std::thread::Threads;

/// The report of a job from the bytes of its input; the job `sample` makes its own table and looks at none.
///
/// - `Refused` is the first fault: of the bytes as a table, of the formula over the table's names, of the design, of
///   what its smooths add, or of the problem; for `test` also the first tested column that is missing, or that all are
///   tested; for `predict` also that there is nothing or too much to predict, or the first fault of a predicted record's
///   row; and for `check` the first fault of the bytes as a certificate. `Dependent` comes only where the columns of the
///   problem are dependent, and `CertTooLong` exactly where the text of the certificate is longer than 2^26 bytes, its
///   rows times its segments exceed 2^30, or a number of it has more than 65,536 digits.
/// - `Rejected` is the verdict of `check` on a certificate.
/// - `PivotLimit` comes only where the lawful trail of the problem, or of a rank interval that its place names, has as
///   many pivots as the job's limit says and one more is left.
/// - `Overflow` comes only where an operation overflows: of the solve at the low end, of the walk, of the rank interval that its place
///   names, of the start of the whole problem of a rank test, or of the costs of a path.
/// - `OutOfMemory` may come at any step.
///
/// A stop of an interval is that of the first that stops, quantile by quantile as given and column by column within. The
/// rank intervals are jobs at once, and each enters the gate with its place in that order before it works. So are the
/// parts of a condition that `check` tests on the segments, condition by condition.
pub fn answer<R: Threads + Sync, G: Gate>(
    rt: &R,
    alloc: Global,
    job: &Job,
    bytes: &[u8],
    gate: &G,
) -> Result<Report, Halt>
    requires asked { (words : List (List ℕ)) × IsJobOf words job.now }
    requires short { length bytes.now ≤ 2 ^ 26 }
    ensures right { IfOk result (IsRight job.now bytes.now) }
    ensures printable { IfOk result IsPrintable }
    ensures cause { IfErr result (HasCause job.now bytes.now) }
{
    match job {
        Job::Process(fit_job) => {
            match fit_bytes(rt, alloc, fit_job, fit_job.rank.is_some(), bytes, gate) {
                Ok(fit) => Ok(Report::Process(fit)),
                Err(halt) => Err(halt),
            }
        }
        Job::Ranks(fit_job) => {
            match ranks_bytes(rt, alloc, fit_job, bytes, gate) {
                Ok(ranks) => Ok(Report::Ranks(ranks)),
                Err(halt) => Err(halt),
            }
        }
        Job::Certify(fit_job) => {
            match certify_bytes(rt, alloc, fit_job, bytes, gate) {
                Ok(cert) => Ok(Report::Certificate(cert)),
                Err(halt) => Err(halt),
            }
        }
        Job::Check => {
            match check_bytes(rt, alloc, bytes, gate) {
                Ok(cert) => Ok(Report::Checked(cert)),
                Err(halt) => Err(halt),
            }
        }
        Job::Test(test_job) => {
            match test_bytes(alloc, test_job, bytes) {
                Ok(fit) => Ok(Report::Test(fit)),
                Err(halt) => Err(halt),
            }
        }
        Job::Predict(fit_job) => {
            match predict_bytes(alloc, fit_job, bytes) {
                Ok(fit) => Ok(Report::Predict(fit)),
                Err(halt) => Err(halt),
            }
        }
        Job::Path(path_job) => {
            match path_bytes(alloc, path_job, bytes) {
                Ok(fit) => Ok(Report::Path(fit)),
                Err(halt) => Err(halt),
            }
        }
        Job::Sample(sample_job) => {
            match fit_sample(rt, alloc, sample_job, gate) {
                Ok(fit) => Ok(Report::Sample(fit)),
                Err(halt) => Err(halt),
            }
        }
    }
}
