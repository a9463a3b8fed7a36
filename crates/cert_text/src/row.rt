//! Rows of a problem.

ghost use Rattle.std.specs.Prelude.{◌≡◌, ◌≢◌, Ok, Err, IfOk, IfErr};
ghost use Rattle.rational_laws.specs.Rational.{ℚ};
ghost use Rattle.loss_model.specs.declared.problem.Row.{Row as row_type};
ghost use Rattle.serde_json.specs.View.{view, members_view};
ghost use Rattle.loss_model.specs.Values.{exact_row};
ghost use Rattle.cert_text.specs.Certificates.{row_members, row};
ghost use Rattle.cert_text.specs.Trees.{row_tree};

use crate::fault::CertFault;
use crate::keys::{field, members, no_more_keys};
use crate::layout::Width;
use crate::parts::{FromJson, ToJson, put};
use frac_core::Frac128;
use loss_model::Row;
use serde_json::{Map, Value};
use std::alloc::{AllocError, Global};
use std::collections::btree_map::Iter;

#[tactic(auto, unfolding(crate::specs::Certificates::row_members))]
fn row_of(alloc: Global, rest: &mut Iter<'_, String, Value>) -> Result<Row<Frac128>, CertFault>
    ensures ok { IfOk result (λ row. row_members (members_view rest.old) ≡ Ok (exact_row row)) }
    ensures err { IfErr result (λ e. e ≢ CertFault.OutOfMemory → row_members (members_view rest.old) ≡ Err e) }
{
    let down0 = field(alloc, Width::Narrow, "down0", rest)?;
    let down1 = field(alloc, Width::Narrow, "down1", rest)?;
    let up0 = field(alloc, Width::Narrow, "up0", rest)?;
    let up1 = field(alloc, Width::Narrow, "up1", rest)?;
    let x = field(alloc, Width::Narrow, "x", rest)?;
    let y = field(alloc, Width::Narrow, "y", rest)?;
    no_more_keys(alloc, rest)?;
    Ok(Row {
        x,
        y,
        up0,
        up1,
        down0,
        down1,
    })
}

impl FromJson for Row<Frac128> {
    ghost Content = { row_type ℚ };

    ghost content = { exact_row };

    ghost reader = { λ _. row };

    #[tactic(auto, unfolding(crate::specs::Certificates::row))]
    fn from_json(alloc: Global, _width: Width, value: &Value) -> Result<Row<Frac128>, CertFault> {
        let found = members(alloc, value)?;
        row_of(alloc, &mut found.iter())
    }
}

impl ToJson for Row<Frac128> {
    ghost tree = { row_tree };

    #[tactic(auto, unfolding(crate::specs::Trees::row_tree))]
    fn to_json(&self, alloc: Global) -> Result<Value, AllocError> {
        let mut object = Map::new(alloc);
        put(alloc, &mut object, "down0", &self.down0)?;
        put(alloc, &mut object, "down1", &self.down1)?;
        put(alloc, &mut object, "up0", &self.up0)?;
        put(alloc, &mut object, "up1", &self.up1)?;
        put(alloc, &mut object, "x", &self.x)?;
        put(alloc, &mut object, "y", &self.y)?;
        Ok(Value::Object(object))
    }
}
