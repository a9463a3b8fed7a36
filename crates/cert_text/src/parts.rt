//! Parts of a certificate as JSON values, both ways.

ghost use Rattle.std.specs.Prelude.{◌≡◌, ◌≢◌, Ok, Err, None, ⊤, All, map, IfOk, IfErr, OnOk};
ghost use Rattle.serde_json.specs.Data.{Data, string, put as with_member};
ghost use Rattle.serde_json.specs.View.{view, items_view, members_view};
ghost use Rattle.cert_text.specs.Reading.{Reading, items_from, linked_list, list};
ghost use Rattle.cert_text.specs.Trees.{list_tree};
ghost use Rattle.cert_text.specs.declared.layout.Width.{Width as width_type};

use crate::fault::CertFault;
use crate::layout::Width;
use crate::path::{under_item, wrong_kind};
use frac_core::List;
use serde_json::{Map, Value};
use std::alloc::{AllocError, Global};

/// A part that is read from a value: what it says is what the reader of its kind gives, and its fault is
/// that reader's fault.
pub(crate) trait FromJson: Sized + Drop {
    ghost Content: { Type 0 };

    ghost content: { Self → Self.Content };

    ghost reader: { width_type → Data → Reading Self.Content };

    ghost IsKept: { Self → Type 0 } = { λ _. ⊤ };

    fn from_json(alloc: Global, width: Width, value: &Value) -> Result<Self, CertFault>
        ensures ok { IfOk result (λ part. reader width (view value.now) ≡ Ok (content part)) }
        ensures kept { IfOk result (λ part. IsKept part) }
        ensures err { IfErr result (λ e. e ≢ CertFault.OutOfMemory → reader width (view value.now) ≡ Err e) };
}

/// A part that is written as a value.
pub(crate) trait ToJson {
    ghost tree: { Self → Data };

    ghost IsKept: { Self → Type 0 } = { λ _. ⊤ };

    fn to_json(&self, alloc: Global) -> Result<Value, AllocError>
        requires { IsKept self.now }
        ensures { IfOk result (λ v. view v ≡ tree self.now) };
}

/// A name that a value has for its kind.
#[derive(Clone, Copy)]
pub(crate) struct Name(pub &'static str);

impl ToJson for Name {
    ghost tree = { λ name. string name.0.now };

    fn to_json(&self, alloc: Global) -> Result<Value, AllocError> {
        Value::try_from_str(alloc, self.0)
    }
}

/// Puts a part under a key.
pub(crate) fn put<T: ToJson>(
    alloc: Global,
    object: &mut Map<String, Value>,
    key: &str,
    part: &T,
) -> Result<(), AllocError>
    requires { T.IsKept part.now }
    ensures { OnOk result (members_view object.new.entries ≡ with_member key.now (T.tree part.now) (members_view object.old.entries)) }
{
    let value = part.to_json(alloc)?;
    serde_json::put(object, alloc, key, value)
}

fn items<T: FromJson>(alloc: Global, width: Width, values: &[Value]) -> Result<Vec<T>, CertFault>
    ensures ok { IfOk result (λ xs. items_from (λ before. T.reader width) None 0 (items_view values.now) ≡ Ok (map T.content xs.items)) }
    ensures kept { IfOk result (λ xs. All T.IsKept xs.items) }
    ensures err { IfErr result (λ e. e ≢ CertFault.OutOfMemory → items_from (λ before. T.reader width) None 0 (items_view values.now) ≡ Err e) }
{
    let mut found = Vec::with_capacity(alloc, values.len())?;
    for i in 0..values.len() {
        match T::from_json(alloc, width, &values[i]) {
            Ok(part) => found.push(part)?,
            Err(fault) => return Err(under_item(alloc, i, fault)),
        }
    }
    Ok(found)
}

impl<T: FromJson> FromJson for List<T> {
    ghost Content = { Rattle.std.specs.Prelude.List T.Content };

    ghost content = { λ xs. map T.content xs };

    ghost reader = { λ width. list (T.reader width) };

    ghost IsKept = { λ xs. All T.IsKept xs };

    #[tactic(auto, unfolding(crate::specs::Reading::linked_list))]
    fn from_json(alloc: Global, width: Width, value: &Value) -> Result<List<T>, CertFault> {
        let Some(values) = value.as_array() else {
            return Err(wrong_kind(alloc));
        };
        match items(alloc, width, values.as_slice()) {
            Ok(found) => Ok(List::from(found)),
            Err(fault) => Err(fault),
        }
    }
}

impl<T: ToJson> ToJson for List<T> {
    ghost tree = { λ xs. list_tree T.tree xs };

    ghost IsKept = { λ xs. All T.IsKept xs };

    fn to_json(&self, alloc: Global) -> Result<Value, AllocError> {
        let items = self.as_slice();
        let mut found = Vec::with_capacity(alloc, items.len())?;
        for item in items {
            found.push(item.to_json(alloc)?)?;
        }
        Ok(Value::Array(found))
    }
}
