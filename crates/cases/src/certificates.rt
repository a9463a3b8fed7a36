//! Certificates as text: what each is read as, and what is written of it.
ghost use Rattle.std.specs.Prelude.{IfOk};
ghost use Rattle.cert_text.specs.Limits.{IsWithinLimits};

use crate::notation::{bytes_of, text_of};
use crate::told::Told;
use cert_text::{Cert, CertFault, read_cert, read_is_within, write_cert};
use frac_core::OutOfMemory;
use std::alloc::Global;

/// The certificate of the bytes. Of what is proved of it only that it is within the limits is told.
pub(crate) fn read(alloc: Global, bytes: &[u8]) -> Result<Cert, CertFault>
    ensures { IfOk result IsWithinLimits }
{
    read_is_within();
    match read_cert(alloc, bytes) {
        Ok(cert) => Ok(cert),
        Err(fault) => Err(fault),
    }
}

// The text with the first place of `old` written anew.
fn replaced(alloc: Global, text: &str, old: &str, new: &str) -> Option<String> {
    let (before, after) = text.split_once(old)?;
    format!(in alloc; "{before}{new}{after}").ok()
}

/// The text that a case shares, in which it writes places anew: of two texts with ` => ` between them the first stands there once, and the
/// second comes in its place.
pub(crate) fn changed(alloc: Global, shared: &str, asked: &str) -> Option<String> {
    let mut text = text_of(alloc, shared)?;
    let mut place = None;
    for piece in asked.split(" => ") {
        let piece = text_of(alloc, piece)?;
        match place {
            None => place = Some(piece),
            Some(old) => {
                text = replaced(alloc, text.as_str(), old.as_str(), piece.as_str())?;
                place = None;
            }
        }
    }
    Some(text)
}

// A fault in a word, and its path.
fn tell_fault(told: &mut Told, fault: &CertFault) {
    let (word, path) = match fault {
        CertFault::OutOfMemory => ("OutOfMemory", ""),
        CertFault::NotJson => ("NotJson", ""),
        CertFault::Shape { path } => ("Shape ", path.as_str()),
        CertFault::Number { path } => ("Number ", path.as_str()),
        CertFault::Version => ("Version", ""),
        CertFault::TooLarge => ("TooLarge", ""),
    };
    told.put(word);
    told.put(path);
}

fn tell_outcome(told: &mut Told, bytes: &[u8]) {
    let answer = read(told.alloc(), bytes);
    match &answer {
        Ok(_) => told.put("read"),
        Err(fault) => tell_fault(told, fault),
    }
    drop(answer);
}

/// Whether the bytes are read, or their first fault.
pub(crate) fn tell(told: &mut Told, asked: &str) {
    match bytes_of(told.alloc(), asked) {
        Some(bytes) => tell_outcome(told, bytes.as_slice()),
        None => told.put("no bytes"),
    }
}

/// Whether a certificate with a place written anew is read, or its first fault.
pub(crate) fn tell_changed(told: &mut Told, shared: &str, asked: &str) {
    match changed(told.alloc(), shared, asked) {
        Some(text) => tell_outcome(told, text.as_bytes()),
        None => told.put("no such place"),
    }
}

// The text of a certificate, without what is proved of it.
fn written(alloc: Global, cert: &Cert) -> Result<Vec<u8>, OutOfMemory> {
    write_cert(alloc, cert)
}

// The text that is written of what was read, or nothing.
fn rewritten(alloc: Global, text: &str) -> Option<String> {
    let cert = read(alloc, text.as_bytes()).ok()?;
    let bytes = written(alloc, &cert).ok()?;
    String::from_utf8(bytes).ok()
}

fn tell_text(told: &mut Told, text: &str) {
    match rewritten(told.alloc(), text) {
        Some(found) => told.put(if found.as_str() == text {
            "the same"
        } else {
            found.as_str()
        }),
        None => told.put("no text"),
    }
}

/// The text that is written of a certificate with a place written anew: `the same`, or another.
pub(crate) fn tell_written(told: &mut Told, shared: &str, asked: &str) {
    match changed(told.alloc(), shared, asked) {
        Some(text) => tell_text(told, text.as_str()),
        None => told.put("no such place"),
    }
}
