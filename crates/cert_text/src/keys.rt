//! The keys of an object, gone through in the order of their bytes.

ghost use Rattle.std.specs.Prelude.{◌≡◌, ◌≢◌, Ok, Err, IfOk, IfErr};
ghost use Rattle.serde_json.specs.Find.{as_object};
ghost use Rattle.serde_json.specs.View.{view, members_view};
ghost use Rattle.cert_text.specs.Reading.{or_shape, next, field, no_more_keys};
ghost use Rattle.cert_text.specs.declared.fault.CertFault.TheVariants.{OutOfMemory};

use crate::fault::CertFault;
use crate::layout::Width;
use crate::parts::FromJson;
use crate::path::{under_key, wrong_key, wrong_kind};
use serde_json::{Map, Value};
use std::alloc::Global;
use std::cmp::Ordering;
use std::collections::btree_map::Iter;

/// The members of a value that must be an object.
pub(crate) fn members<'a>(
    alloc: Global,
    value: &'a Value,
) -> Result<&'a Map<String, Value>, CertFault>
    ensures ok { IfOk result (λ m. or_shape (as_object (view value.now)) ≡ Ok (members_view m.now.entries)) }
    ensures err { IfErr result (λ e. or_shape (as_object (view value.now)) ≡ Err e) }
{
    match value.as_object() {
        Some(members) => Ok(members),
        None => Err(wrong_kind(alloc)),
    }
}

/// The value of the next key, which must be this one.
#[tactic(auto, unfolding(crate::specs::Reading::next))]
pub(crate) fn next<'a>(
    alloc: Global,
    key: &str,
    rest: &mut Iter<'a, String, Value>,
) -> Result<&'a Value, CertFault>
    ensures ok { IfOk result (λ v. next key.now (members_view rest.old) ≡ Ok (view v.now, members_view rest.new)) }
    ensures err { IfErr result (λ e. e ≢ OutOfMemory → next key.now (members_view rest.old) ≡ Err e) }
{
    let Some((found, value)) = rest.next() else {
        return Err(wrong_key(alloc, key));
    };
    match key.cmp(found.as_str()) {
        Ordering::Less => Err(wrong_key(alloc, key)),
        Ordering::Equal => Ok(value),
        Ordering::Greater => Err(wrong_key(alloc, found.as_str())),
    }
}

/// The part that the next key has, which must be this one.
#[tactic(auto, unfolding(crate::specs::Reading::field))]
pub(crate) fn field<T: FromJson>(
    alloc: Global,
    width: Width,
    key: &str,
    rest: &mut Iter<'_, String, Value>,
) -> Result<T, CertFault>
    ensures ok { IfOk result (λ part. field key.now (T.reader width) (members_view rest.old) ≡ Ok (T.content part, members_view rest.new)) }
    ensures kept { IfOk result (λ part. T.IsKept part) }
    ensures err { IfErr result (λ e. e ≢ OutOfMemory → field key.now (T.reader width) (members_view rest.old) ≡ Err e) }
{
    let value = next(alloc, key, rest)?;
    match T::from_json(alloc, width, value) {
        Ok(part) => Ok(part),
        Err(fault) => Err(under_key(alloc, key, fault)),
    }
}

/// No key is left.
#[tactic(auto, unfolding(crate::specs::Reading::no_more_keys))]
pub(crate) fn no_more_keys(
    alloc: Global,
    rest: &mut Iter<'_, String, Value>,
) -> Result<(), CertFault>
    ensures ok { IfOk result (λ _. no_more_keys (members_view rest.old) ≡ Ok tt) }
    ensures err { IfErr result (λ e. e ≢ OutOfMemory → no_more_keys (members_view rest.old) ≡ Err e) }
{
    match rest.next() {
        None => Ok(()),
        Some((found, _)) => Err(wrong_key(alloc, found.as_str())),
    }
}
