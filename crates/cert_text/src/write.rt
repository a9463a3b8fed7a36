//! From a certificate to its text.

ghost use Rattle.std.specs.Prelude.{◌≡◌, ◌≤◌, ◌^◌, ◌++◌, ◌∷◌, [], false, All, Ok, Some, length, IfOk};
ghost use Rattle.json.specs.Tree.{HasNumbers};
ghost use Rattle.serde_json.specs.Data.{depth};
ghost use Rattle.serde_json.specs.Read.{max_depth};
ghost use Rattle.serde_json.specs.View.{view};
ghost use Rattle.serde_json.specs.Written.{has_float, outline, compact_text};
ghost use Rattle.cert_text.specs.Certificates.{json_of, cert_of};
ghost use Rattle.cert_text.specs.Contents.{content};
ghost use Rattle.cert_text.specs.Numbers.{AreLowest};
ghost use Rattle.cert_text.specs.Limits.{IsWithinLimits};
ghost use Rattle.cert_text.specs.Trees.{layout_for, version, cert_tree, cert_text};

use crate::cert::Cert;
use crate::chain::{LaidOut, is_chained};
use crate::layout::Layout;
use crate::narrow::cert_is_narrow;
use crate::parts::{Name, put};
use frac_core::OutOfMemory;
use serde_json::{Map, Value};
use std::alloc::{AllocError, Global};

// The layout of the text: of any size where a number is wider than 127 bits, else chained where the certificate is.
fn layout_for(is_narrow: bool, is_chained: bool) -> Layout
    ensures { result ≡ layout_for is_narrow is_chained }
{
    if !is_narrow {
        return Layout::Wide;
    }
    if is_chained {
        Layout::Chained
    } else {
        Layout::Full
    }
}

fn version(layout: Layout) -> u32
    ensures { result ≡ version layout }
{
    match layout {
        Layout::Full => 1,
        Layout::Chained => 2,
        Layout::Wide => 3,
    }
}

#[tactic(auto, unfolding(crate::specs::Trees::cert_tree))]
fn to_json(alloc: Global, cert: &Cert) -> Result<Value, AllocError>
    ensures tree { IfOk result (λ v. view v ≡ cert_tree cert.now) }
    ensures lowest { IfOk result (λ _. AreLowest cert.now) }
{
    let is_narrow = cert_is_narrow(cert);
    let is_chained = is_chained(alloc, cert)?;
    let laid_out = LaidOut {
        is_chained,
        segments: &cert.segments,
    };
    let mut object = Map::new(alloc);
    put(alloc, &mut object, "columns", &cert.problem.columns)?;
    put(alloc, &mut object, "hi", &cert.hi)?;
    put(alloc, &mut object, "intervals", &cert.intervals)?;
    put(alloc, &mut object, "kind", &Name("quantreg-certificate"))?;
    put(alloc, &mut object, "lo", &cert.lo)?;
    put(alloc, &mut object, "rows", &cert.problem.rows)?;
    put(alloc, &mut object, "segments", &laid_out)?;
    put(
        alloc,
        &mut object,
        "version",
        &version(layout_for(is_narrow, is_chained)),
    )?;
    Ok(Value::Object(object))
}

// A value without a float as compact text, and a line feed.
fn line_of(alloc: Global, value: &Value) -> Result<Vec<u8>, AllocError>
    ensures back { IfOk result (λ bytes. has_float (view value.now) ≡ false → HasNumbers (outline (view value.now))
        → depth (view value.now) ≤ max_depth → json_of bytes.items ≡ Some (view value.now)) }
    ensures text { IfOk result (λ bytes. has_float (view value.now) ≡ false
        → bytes.items ≡ compact_text (view value.now) ++ 10 ∷ []) }
{
    let mut bytes = value.to_vec(alloc)?;
    bytes.push(b'\n')?;
    Ok(bytes)
}

#[tactic(auto, using(crate::proofs::Plain::cert_plain))]
fn bytes_of(alloc: Global, cert: &Cert) -> Result<Vec<u8>, AllocError>
    ensures back { IsWithinLimits cert.now → IfOk result (λ bytes. json_of bytes.items ≡ Some (cert_tree cert.now)) }
    ensures text { IfOk result (λ bytes. bytes.items ≡ cert_text cert.now) }
    ensures lowest { IfOk result (λ _. AreLowest cert.now) }
{
    let value = to_json(alloc, cert)?;
    match line_of(alloc, &value) {
        Ok(bytes) => Ok(bytes),
        Err(error) => Err(error),
    }
}

/// The text of a certificate: one JSON object on a line, with its keys in the order of their bytes and its
/// fractions as canonical number text. Where a number of a segment or an interval is wider than 127 bits it is of version 3;
/// else of version 2
/// where the certificate is chained, and of version 1 where it isn't. Where the certificate is within the limits of `read_cert`, the text
/// is read as that certificate. It refuses only for memory.
pub fn write_cert(alloc: Global, cert: &Cert) -> Result<Vec<u8>, OutOfMemory>
    ensures text { IfOk result (λ bytes. bytes.items ≡ cert_text cert.now) }
    ensures back { IsWithinLimits cert.now → IfOk result (λ bytes. cert_of bytes.items ≡ Ok (content cert.now)) }
{
    match bytes_of(alloc, cert) {
        Ok(bytes) => Ok(bytes),
        Err(_) => Err(OutOfMemory),
    }
}
