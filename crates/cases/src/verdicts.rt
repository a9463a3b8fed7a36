//! What the checker finds in certificates: that all tests are true, or the first that is false.
ghost use Rattle.cert_text.specs.Limits.{IsWithinLimits};

use crate::certificates::{changed, read};
use crate::told::Told;
use cert_checker::{Rejection, Verdict, check};
use cert_text::Cert;
use rq_fan::Open;
use std::thread::Threads;

// The condition, the segment or interval, the number there, and both sides.
fn tell_rejection(told: &mut Told, found: &Rejection) {
    told.put_named("rejected ", u32::from(found.condition));
    told.put_named(" ", found.index);
    told.put_named(" ", found.inner);
    told.put(": ");
    told.put_ratio(&found.left);
    told.put(" ");
    told.put_ratio(&found.right);
}

fn tell_found<R: Threads + Sync>(rt: &R, told: &mut Told, cert: &Cert)
    requires { IsWithinLimits cert.now }
{
    match check(rt, told.alloc(), cert, &Open) {
        Ok(Verdict::Accepted) => told.put("accepted"),
        Ok(Verdict::Rejected(rejection)) => tell_rejection(told, &rejection),
        Err(_) => told.put("no memory"),
    }
}

fn tell_text<R: Threads + Sync>(rt: &R, told: &mut Told, text: &str) {
    match read(told.alloc(), text.as_bytes()) {
        Ok(cert) => {
            tell_found(rt, told, &cert);
            drop(cert);
        }
        Err(_) => told.put("not read"),
    }
}

/// What is found in a certificate with a place written anew.
pub(crate) fn tell<R: Threads + Sync>(rt: &R, told: &mut Told, shared: &str, asked: &str) {
    match changed(told.alloc(), shared, asked) {
        Some(text) => tell_text(rt, told, text.as_str()),
        None => told.put("no such place"),
    }
}
