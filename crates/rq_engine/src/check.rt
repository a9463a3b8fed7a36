//! The job `check`: the certificate that the bytes are, and all its conditions.
ghost use Rattle.std.specs.Prelude.{IfOk, IfErr};
ghost use Rattle.rq_engine.specs.Checks.{HasCheckCause, IsCheckedOf};

use cert_checker::{Verdict, check};
use cert_text::{Cert, CertFault, read_cert, read_is_within};
use frac_core::OutOfMemory;
use report_text::{Halt, Refusal};
use rq_fan::Gate;
use std::alloc::Global;
use std::thread::Threads;

/// The certificate that the bytes are, if all its conditions are true.
///
/// `Refused` is the first fault of the bytes as a certificate, and `Rejected` has the first test that is false. `OutOfMemory`
/// may come at any
/// step, and no other halt comes. The jobs of `check` pass the gate.
pub(crate) fn check_bytes<R: Threads + Sync, G: Gate>(
    rt: &R,
    alloc: Global,
    bytes: &[u8],
    gate: &G,
) -> Result<Cert, Halt>
    ensures checked { IfOk result (IsCheckedOf bytes.now) }
    ensures cause { IfErr result (HasCheckCause bytes.now) }
{
    read_is_within();
    let cert = match read_cert(alloc, bytes) {
        Ok(cert) => cert,
        Err(CertFault::OutOfMemory) => return Err(Halt::OutOfMemory),
        Err(fault) => return Err(Halt::Refused(Refusal::Certificate(fault))),
    };
    let verdict = match check(rt, alloc, &cert, gate) {
        Ok(verdict) => verdict,
        Err(OutOfMemory) => return Err(Halt::OutOfMemory),
    };
    match verdict {
        Verdict::Accepted => Ok(cert),
        Verdict::Rejected(rejection) => Err(Halt::Rejected(rejection)),
    }
}
