//! The job `certify`: the fit of the job `process`, as a certificate.
ghost use Rattle.std.specs.Prelude.{◌≡◌, ◌<◌, ◌≤◌, ◌^◌, All, is_some, length, map, nat_lt, true, IfOk, IfErr, OnOk, Some};
ghost use Rattle.rank_walk_model.specs.Intervals.{statement};
ghost use Rattle.cert_text.specs.Kept.{IsKeptSegment};
ghost use Rattle.cert_text.specs.Limits.{most_sides};
ghost use Rattle.rq_input.specs.Rows.{HasRows};
ghost use Rattle.rq_engine.specs.Asks.{IsFitAsk};
ghost use Rattle.rq_engine.specs.Intervals.{HasFactors};
ghost use Rattle.rq_engine.specs.Answers.{HasCertifiedCause, HasCertifyCause, IsCertified, IsCertifiedOfBytes};
ghost use Rattle.rq_engine.specs.Certificates.{IsCertificateOf, IsWritten, sides_of};
ghost use Rattle.rq_engine.specs.Certifying.{IsKept, IsLengthHalt};

use crate::digits::cert_is_readable;
use crate::fit::fit_input;
use cert_text::{Cert, write_cert};
use frac_core::{List, OutOfMemory};
use loss_model::{Interval, IntervalProof};
use report_text::{Fit, Halt, Refusal};
use rq_fan::Gate;
use rq_input::{Input, read_input};
use rq_words::FitJob;
use std::alloc::Global;
use std::thread::Threads;

/// The most bytes of a certificate's text.
const MOST_BYTES: u64 = 1 << 26;

/// The most sides of a certificate: rows times segments.
const MOST_SIDES: usize = 1 << 30;

// What a certificate states of an interval that lists the factors of its projection.
fn proof_of(interval: Interval) -> IntervalProof
    requires { HasFactors interval }
    ensures { Some result ≡ statement interval }
{
    let Interval {
        column,
        tau,
        crit,
        low,
        high,
        projection,
        ..
    } = interval;
    match projection {
        Some(projection) => IntervalProof {
            column,
            tau,
            crit,
            low,
            high,
            projection,
        },
        None => unreachable!(),
    }
}

// What a certificate states of each of the intervals.
fn proofs(alloc: Global, intervals: List<Interval>) -> Result<List<IntervalProof>, OutOfMemory>
    requires { All HasFactors intervals }
    ensures { IfOk result (λ proofs. map Some proofs ≡ map statement intervals) }
{
    let mut proofs = List::new(alloc);
    for interval in intervals.into_vec() {
        proofs.add(proof_of(interval))?;
    }
    Ok(proofs)
}

// The certificate of a fit.
fn cert_of_fit(alloc: Global, job: &FitJob, fit: Fit) -> Result<Cert, OutOfMemory>
    requires listed { All IsKeptSegment fit.process.segments }
    requires ended { All IsKept fit.intervals }
    requires projections { All HasFactors fit.intervals }
    ensures { IfOk result (IsCertificateOf job.now fit) }
{
    let Fit {
        problem,
        process,
        intervals,
        ..
    } = fit;
    let intervals = proofs(alloc, intervals)?;
    Ok(Cert {
        problem,
        lo: job.lo,
        hi: job.hi,
        segments: process.segments,
        intervals,
    })
}

// Whether a certificate has more sides than are read back.
fn has_many_sides(cert: &Cert) -> bool
    ensures { result ≡ nat_lt most_sides (sides_of cert.now) }
{
    let rows = cert.problem.rows.as_slice().len();
    let segments = cert.segments.as_slice().len();
    rows.saturating_mul(segments) > MOST_SIDES
}

// Whether the text of a certificate is short enough, its sides few enough, and no number of it has more digits than are read.
fn test_length(alloc: Global, cert: &Cert) -> Result<(), Halt>
    ensures written { OnOk result (IsWritten cert.now) }
    ensures long { IfErr result (IsLengthHalt cert.now) }
{
    let length = match write_cert(alloc, cert) {
        Ok(text) => text.len() as u64,
        Err(_) => return Err(Halt::OutOfMemory),
    };
    if length > MOST_BYTES || has_many_sides(cert) {
        return Err(Halt::Refused(Refusal::CertTooLong { length }));
    }
    match cert_is_readable(alloc, cert) {
        Ok(true) => Ok(()),
        Ok(false) => Err(Halt::Refused(Refusal::CertTooLong { length })),
        Err(OutOfMemory) => Err(Halt::OutOfMemory),
    }
}

// The certificate of an input.
//
// Its halts are those of the fit, each of whose intervals lists the factors of its projection, and then `CertTooLong`.
fn certify_input<R: Threads + Sync, G: Gate>(
    rt: &R,
    alloc: Global,
    job: &FitJob,
    input: Input,
    gate: &G,
) -> Result<Cert, Halt>
    requires ask { IsFitAsk job.now }
    requires rows { HasRows input }
    requires unpenalised { is_some job.now.rank ≡ true → length input.smoothing.rows ≡ 0 }
    ensures right { IfOk result (IsCertified job.now input) }
    ensures written { IfOk result IsWritten }
    ensures cause { IfErr result (HasCertifiedCause job.now input) }
{
    let fit = match fit_input(rt, alloc, job, input, gate) {
        Ok(fit) => fit,
        Err(halt) => return Err(halt),
    };
    let cert = match cert_of_fit(alloc, job, fit) {
        Ok(cert) => cert,
        Err(_) => return Err(Halt::OutOfMemory),
    };
    match test_length(alloc, &cert) {
        Ok(()) => Ok(cert),
        Err(halt) => Err(halt),
    }
}

/// The certificate of the fit over the range of a job, from the bytes of its input, if its text isn't longer than 2^26
/// bytes, its rows times its segments don't exceed 2^30, and no number of it has more than 65,536 digits.
pub(crate) fn certify_bytes<R: Threads + Sync, G: Gate>(
    rt: &R,
    alloc: Global,
    job: &FitJob,
    bytes: &[u8],
    gate: &G,
) -> Result<Cert, Halt>
    requires ask { IsFitAsk job.now }
    requires long { length job.now.formula < 2 ^ 31 }
    requires few { length bytes.now ≤ 2 ^ 26 }
    ensures right { IfOk result (IsCertifiedOfBytes job.now bytes.now) }
    ensures written { IfOk result IsWritten }
    ensures cause { IfErr result (HasCertifyCause job.now bytes.now) }
{
    match read_input(alloc, job, job.rank.is_some(), bytes) {
        Ok(input) => certify_input(rt, alloc, job, input, gate),
        Err(halt) => Err(halt),
    }
}
