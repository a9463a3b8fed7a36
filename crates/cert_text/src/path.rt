//! Paths: JSON pointers to the parts of a text. A fault is found with the path from the value in which
//! it is, and every level above puts its own step before that path; so no path is made where nothing is
//! wrong.

ghost use Rattle.std.specs.Prelude.{◌≡◌, ◌≢◌, ◌++◌, ◌∷◌, [], IfOk, OnOk};
ghost use Rattle.cert_text.specs.Paths.{escaped_byte, key_step, item_step};
ghost use Rattle.cert_text.specs.Reading.{further};

use crate::fault::CertFault;
use frac_core::{OutOfMemory, Text};
use itoa::Buffer;
use std::alloc::Global;

fn push(page: &mut Vec<u8>, bytes: &[u8]) -> Result<(), OutOfMemory>
    ensures { OnOk result (page.new.items ≡ page.old.items ++ bytes.now) }
{
    match page.extend_from_slice(bytes) {
        Ok(()) => Ok(()),
        Err(_) => Err(OutOfMemory),
    }
}

// RFC 6901 writes `~0` for a tilde and `~1` for a slash.
fn push_escaped(page: &mut Vec<u8>, byte: u8) -> Result<(), OutOfMemory>
    ensures { OnOk result (page.new.items ≡ page.old.items ++ escaped_byte byte) }
{
    if byte == b'~' {
        return push(page, b"~0");
    }
    if byte == b'/' {
        return push(page, b"~1");
    }
    push(page, &[byte])
}

#[tactic(auto, unfolding(crate::specs::Paths::key_step))]
fn step_to_key(alloc: Global, key: &str) -> Result<Vec<u8>, OutOfMemory>
    ensures { IfOk result (λ page. page.items ≡ key_step key.now) }
{
    let mut page = Vec::new(alloc);
    push(&mut page, b"/")?;
    for byte in key.as_bytes() {
        push_escaped(&mut page, *byte)?;
    }
    Ok(page)
}

#[tactic(auto, unfolding(crate::specs::Paths::item_step))]
fn step_to_item(alloc: Global, place: usize) -> Result<Vec<u8>, OutOfMemory>
    ensures { IfOk result (λ page. page.items ≡ item_step place) }
{
    let mut page = Vec::new(alloc);
    push(&mut page, b"/")?;
    push(&mut page, Buffer::new().format(place as u64).as_bytes())?;
    Ok(page)
}

// The step and the path behind it.
fn joined(mut step: Vec<u8>, path: &str) -> Result<Text, OutOfMemory>
    ensures { IfOk result (λ t. t ≡ step.items ++ path.now) }
{
    push(&mut step, path.as_bytes())?;
    match String::from_utf8(step) {
        Ok(contents) => Ok(Text::from(contents)),
        Err(_) => Err(OutOfMemory),
    }
}

// The fault with a step before its path.
fn behind(step: Vec<u8>, fault: CertFault) -> CertFault
    ensures { result ≢ CertFault.OutOfMemory → (result ≡ further step.items fault) × (fault ≢ CertFault.OutOfMemory) }
{
    match fault {
        CertFault::Shape { path } => match joined(step, path.as_str()) {
            Ok(path) => CertFault::Shape { path },
            Err(_) => CertFault::OutOfMemory,
        },
        CertFault::Number { path } => match joined(step, path.as_str()) {
            Ok(path) => CertFault::Number { path },
            Err(_) => CertFault::OutOfMemory,
        },
        other => other,
    }
}

/// The fault of a key's value, seen from the object.
pub(crate) fn under_key(alloc: Global, key: &str, fault: CertFault) -> CertFault
    ensures { result ≢ CertFault.OutOfMemory → (result ≡ further (key_step key.now) fault) × (fault ≢ CertFault.OutOfMemory) }
{
    match step_to_key(alloc, key) {
        Ok(step) => behind(step, fault),
        Err(_) => CertFault::OutOfMemory,
    }
}

/// The fault of an item, seen from the list.
pub(crate) fn under_item(alloc: Global, place: usize, fault: CertFault) -> CertFault
    ensures { result ≢ CertFault.OutOfMemory → (result ≡ further (item_step place) fault) × (fault ≢ CertFault.OutOfMemory) }
{
    match step_to_item(alloc, place) {
        Ok(step) => behind(step, fault),
        Err(_) => CertFault::OutOfMemory,
    }
}

/// The fault of a value that is of another kind.
pub(crate) fn wrong_kind(alloc: Global) -> CertFault
    ensures { result ≡ CertFault.Shape [] }
{
    CertFault::Shape {
        path: Text::from(String::new(alloc)),
    }
}

/// The fault of a string that is no number text, or too wide.
pub(crate) fn wrong_number(alloc: Global) -> CertFault
    ensures { result ≡ CertFault.Number [] }
{
    CertFault::Number {
        path: Text::from(String::new(alloc)),
    }
}

/// The fault of a key that is missing or unknown.
pub(crate) fn wrong_key(alloc: Global, key: &str) -> CertFault
    ensures { result ≢ CertFault.OutOfMemory → result ≡ CertFault.Shape (key_step key.now) }
{
    let Ok(step) = step_to_key(alloc, key) else {
        return CertFault::OutOfMemory;
    };
    match joined(step, "") {
        Ok(path) => CertFault::Shape { path },
        Err(_) => CertFault::OutOfMemory,
    }
}
