//! Fractions and counts.

ghost use Rattle.std.specs.Prelude.{◌≡◌, ◌≢◌, ◌<◌, ◌^◌, ℕ, Ok, Err, IfOk, IfErr};
ghost use Rattle.rational_laws.specs.Fraction.{Fraction};
ghost use Rattle.rational_laws.specs.Rational.{ℚ};
ghost use Rattle.serde_json.specs.Data.{number, unsigned};
ghost use Rattle.serde_json.specs.View.{members_view};
ghost use Rattle.frac_core.specs.Values.{exact};
ghost use Rattle.cert_text.specs.Certificates.{ratios};
ghost use Rattle.cert_text.specs.Ratios.{ratio};
ghost use Rattle.cert_text.specs.Reading.{fraction, count, field};
ghost use Rattle.cert_text.specs.Trees.{fraction_tree, ratio_tree};

use crate::digits::read_ratio;
use crate::fault::CertFault;
use crate::keys::field;
use crate::layout::Width;
use crate::parts::{FromJson, ToJson};
use crate::path::{wrong_kind, wrong_number};
use frac_core::{Frac128, List, number_text, read_number};
use ratio::Ratio;
use serde_json::Value;
use std::alloc::{AllocError, Global};
use std::collections::btree_map::Iter;

impl FromJson for Frac128 {
    ghost Content = { ℚ };

    ghost content = { exact };

    ghost reader = { λ _. fraction };

    // A string that is a number text in range.
    #[tactic(auto, unfolding(crate::specs::Reading::fraction))]
    fn from_json(alloc: Global, _width: Width, value: &Value) -> Result<Frac128, CertFault> {
        let Some(text) = value.as_str() else {
            return Err(wrong_kind(alloc));
        };
        match read_number(text) {
            Ok(number) => Ok(number),
            Err(_) => Err(wrong_number(alloc)),
        }
    }
}

impl ToJson for Frac128 {
    ghost tree = { fraction_tree };

    fn to_json(&self, alloc: Global) -> Result<Value, AllocError> {
        match number_text(alloc, *self) {
            Ok(text) => Value::try_from_str(alloc, text.as_str()),
            Err(_) => Err(AllocError),
        }
    }
}

impl FromJson for Ratio {
    ghost Content = { Fraction };

    ghost content = { λ x. x };

    ghost reader = { ratio };

    // A string that writes a number of this width.
    #[tactic(auto, unfolding(crate::specs::Ratios::ratio))]
    fn from_json(alloc: Global, width: Width, value: &Value) -> Result<Ratio, CertFault> {
        let Some(text) = value.as_str() else {
            return Err(wrong_kind(alloc));
        };
        match read_ratio(alloc, width, text)? {
            Some(number) => Ok(number),
            None => Err(wrong_number(alloc)),
        }
    }
}

impl ToJson for Ratio {
    ghost tree = { ratio_tree };

    fn to_json(&self, alloc: Global) -> Result<Value, AllocError> {
        let mut text = Vec::new(alloc);
        if self.write(alloc, &mut text).is_err() {
            return Err(AllocError);
        }
        match String::from_utf8(text) {
            Ok(text) => Ok(Value::String(text)),
            Err(_) => Err(AllocError),
        }
    }
}

/// The numbers that the next key has, which must be this one.
pub(crate) fn ratios(
    alloc: Global,
    width: Width,
    key: &str,
    rest: &mut Iter<'_, String, Value>,
) -> Result<List<Ratio>, CertFault>
    ensures ok { IfOk result (λ xs. field key.now (ratios width) (members_view rest.old) ≡ Ok (xs, members_view rest.new)) }
    ensures err { IfErr result (λ e. e ≢ CertFault.OutOfMemory → field key.now (ratios width) (members_view rest.old) ≡ Err e) }
{
    field(alloc, width, key, rest)
}

impl ToJson for u32 {
    ghost tree = { λ n. number (unsigned n) };

    fn to_json(&self, _alloc: Global) -> Result<Value, AllocError> {
        Ok(Value::from(*self))
    }
}

impl FromJson for u32 {
    ghost Content = { ℕ };

    ghost content = { λ n. n };

    ghost reader = { λ _. count };

    // An unsigned number below 2^32.
    #[tactic(auto, unfolding(crate::specs::Reading::count))]
    fn from_json(alloc: Global, _width: Width, value: &Value) -> Result<u32, CertFault> {
        let Some(number) = value.as_u64() else {
            return Err(wrong_kind(alloc));
        };
        if number < 1 << 32 {
            Ok(number as u32)
        } else {
            Err(wrong_kind(alloc))
        }
    }
}
