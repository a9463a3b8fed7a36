//! Sides, and the vertices that are read from them.

ghost use Rattle.std.specs.Prelude.{◌≡◌, ◌<◌, ◌^◌, ◌∷◌, [], List as list, Ok, Err, Some, None, option_map, map, length, IfOk, IfErr, IfSome, IsNone};
ghost use Rattle.loss_model.specs.declared.vertex.Side.{Side as side};
ghost use Rattle.serde_json.specs.View.{view};
ghost use Rattle.cert_text.specs.Kept.{basic_rows, IsListed};
ghost use Rattle.cert_text.specs.Certificates.{sides, sides_of, side_of};
ghost use Rattle.cert_text.specs.Trees.{sign_of, sides_tree};

use crate::fault::CertFault;
use crate::layout::Width;
use crate::parts::{FromJson, ToJson};
use crate::path::wrong_kind;
use frac_core::{List, OutOfMemory};
use loss_model::{Basis, Side, Vertex};
use ratio::Ratio;
use serde_json::Value;
use std::alloc::{AllocError, Global};

/// The sides of the rows.
#[derive(Drop)]
pub(crate) struct Sides(pub List<Side>);

fn side_of(sign: u8) -> Option<Side>
    ensures { result ≡ side_of sign }
{
    match sign {
        b'+' => Some(Side::Up),
        b'-' => Some(Side::Down),
        b'*' => Some(Side::Basic),
        _ => None,
    }
}

fn sign_of(side: Side) -> &'static str
    ensures { result.now ≡ sign_of side ∷ [] }
{
    match side {
        Side::Up => "+",
        Side::Down => "-",
        Side::Basic => "*",
    }
}

// The sides that a string of signs names, or none where some byte is no sign.
fn sides_of(alloc: Global, signs: &[u8]) -> Result<Option<List<Side>>, AllocError>
    ensures { IfOk result (λ found. found ≡ sides_of signs.now) }
{
    let mut found = Vec::with_capacity(alloc, signs.len())?;
    for sign in signs {
        match side_of(*sign) {
            Some(side) => found.push(side)?,
            None => return Ok(None),
        }
    }
    Ok(Some(List::from(found)))
}

impl FromJson for Sides {
    ghost Content = { list side };

    ghost content = { λ s. s.0 };

    ghost reader = { λ _. sides };

    #[tactic(auto, unfolding(crate::specs::Certificates::sides))]
    fn from_json(alloc: Global, _width: Width, value: &Value) -> Result<Sides, CertFault> {
        let Some(signs) = value.as_str() else {
            return Err(wrong_kind(alloc));
        };
        match sides_of(alloc, signs.as_bytes()) {
            Ok(Some(found)) => Ok(Sides(found)),
            Ok(None) => Err(wrong_kind(alloc)),
            Err(_) => Err(CertFault::OutOfMemory),
        }
    }
}

/// The sides of the rows as they are written: a string of signs, one for each row.
#[derive(Clone, Copy)]
pub(crate) struct Signs<'a>(pub &'a [Side]);

impl ToJson for Signs<'_> {
    ghost tree = { λ s. sides_tree s.0.now };

    fn to_json(&self, alloc: Global) -> Result<Value, AllocError> {
        sides_to_json(alloc, self.0)
    }
}

fn sides_to_json(alloc: Global, sides: &[Side]) -> Result<Value, AllocError>
    ensures { IfOk result (λ v. view v ≡ sides_tree sides.now) }
{
    let mut signs = String::with_capacity(alloc, sides.len())?;
    for side in sides {
        signs.push_str(sign_of(*side))?;
    }
    Ok(Value::String(signs))
}

// The rows that are basic, ascending. A row is counted in 32 bits: past 2^32 of them no memory is left.
fn basic_rows(alloc: Global, sides: &[Side]) -> Result<List<u32>, OutOfMemory>
    ensures { IfOk result (λ rows. rows ≡ basic_rows sides.now) }
{
    if sides.len() > u32::MAX as usize {
        return Err(OutOfMemory);
    }
    let mut found = List::new(alloc);
    for row in 0..sides.len() {
        if sides[row] == Side::Basic {
            found.add(row as u32)?;
        }
    }
    Ok(found)
}

/// The vertex with these sides, whose basis lists the rows that are basic.
pub(crate) fn vertex(alloc: Global, sides: Sides, coef: List<Ratio>) -> Result<Vertex, OutOfMemory>
    ensures { IfOk result (λ v. v ≡ record { basis = record { rows = basic_rows sides.0 }; sides = sides.0; coef = coef }) }
{
    let rows = basic_rows(alloc, sides.0.as_slice())?;
    Ok(Vertex {
        basis: Basis { rows },
        sides: sides.0,
        coef,
    })
}
