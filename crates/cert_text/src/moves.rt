//! Rows whose side changes from one segment to the next.

ghost use Rattle.std.specs.Prelude.{◌≡◌, ◌≢◌, ◌<◌, ◌≤◌, ◌^◌, Ok, Err, Some, None, codes, length, map, option_and_then, if◌then◌else◌, IfOk, IfErr};
ghost use Rattle.rational_laws.specs.Fraction.{Fraction};
ghost use Rattle.loss_model.specs.declared.vertex.Side.{Side as side_type};
ghost use Rattle.serde_json.specs.Data.{string, no_members, member};
ghost use Rattle.serde_json.specs.View.{view, members_view};
ghost use Rattle.cert_text.specs.Chains.{moves_from, may_move, moved};
ghost use Rattle.cert_text.specs.Certificates.{side_by_name, side, place_members as read_place, move_members, one_move};
ghost use Rattle.cert_text.specs.Trees.{place_members, move_tree};
ghost use Rattle.cert_text.specs.declared.place.Place.TheVariants.{On};
ghost use Rattle.cert_text.specs.declared.moves.Move.{Move as move_type};

use crate::fault::CertFault;
use crate::keys::{field, members, no_more_keys};
use crate::layout::Width;
use crate::parts::{FromJson, Name, ToJson, put};
use crate::path::wrong_kind;
use crate::place::Place;
use frac_core::OutOfMemory;
use loss_model::Side;
use ratio::Ratio;
use serde_json::{Map, Value};
use std::alloc::{AllocError, Global};
use std::collections::btree_map::Iter;

/// A row whose side changes, counted from 0, and where it lies then.
#[derive(Drop)]
pub(crate) struct Move<F> {
    pub row: u32,
    pub place: Place<F>,
}

impl FromJson for Side {
    ghost Content = { side_type };

    ghost content = { λ s. s };

    ghost reader = { λ _. side };

    // One sign.
    #[tactic(auto, unfolding(crate::specs::Certificates::side))]
    fn from_json(alloc: Global, _width: Width, value: &Value) -> Result<Side, CertFault> {
        let Some(name) = value.as_str() else {
            return Err(wrong_kind(alloc));
        };
        if name == "+" {
            return Ok(Side::Up);
        }
        if name == "-" {
            return Ok(Side::Down);
        }
        if name == "*" {
            return Ok(Side::Basic);
        }
        Err(wrong_kind(alloc))
    }
}

// The place of a row that moves to a side: behind the side stands a value exactly where it is basic.
#[tactic(auto, unfolding(crate::specs::Certificates::place_members))]
fn place_of(
    alloc: Global,
    width: Width,
    side: Side,
    rest: &mut Iter<'_, String, Value>,
) -> Result<Place<Ratio>, CertFault>
    ensures ok { IfOk result (λ p. read_place width side (members_view rest.old) ≡ Ok p) }
    ensures err { IfErr result (λ e. e ≢ CertFault.OutOfMemory → read_place width side (members_view rest.old) ≡ Err e) }
{
    match side {
        Side::Up => {
            no_more_keys(alloc, rest)?;
            Ok(Place::Above)
        }
        Side::Down => {
            no_more_keys(alloc, rest)?;
            Ok(Place::Below)
        }
        Side::Basic => {
            let value = field(alloc, width, "value", rest)?;
            no_more_keys(alloc, rest)?;
            Ok(Place::On(value))
        }
    }
}

#[tactic(auto, unfolding(crate::specs::Certificates::move_members))]
fn move_of(
    alloc: Global,
    width: Width,
    rest: &mut Iter<'_, String, Value>,
) -> Result<Move<Ratio>, CertFault>
    ensures ok { IfOk result (λ m. move_members width (members_view rest.old) ≡ Ok m) }
    ensures err { IfErr result (λ e. e ≢ CertFault.OutOfMemory → move_members width (members_view rest.old) ≡ Err e) }
{
    let row = field(alloc, width, "row", rest)?;
    let side = field(alloc, width, "side", rest)?;
    let place = place_of(alloc, width, side, rest)?;
    Ok(Move { row, place })
}

impl FromJson for Move<Ratio> {
    ghost Content = { move_type Fraction };

    ghost content = { λ m. m };

    ghost reader = { one_move };

    #[tactic(auto, unfolding(crate::specs::Certificates::one_move))]
    fn from_json(alloc: Global, width: Width, value: &Value) -> Result<Move<Ratio>, CertFault> {
        let found = members(alloc, value)?;
        move_of(alloc, width, &mut found.iter())
    }
}

#[tactic(auto, unfolding(crate::specs::Trees::move_tree))]
fn off_the_fit(alloc: Global, to: &Move<Ratio>, sign: &'static str) -> Result<Value, AllocError>
    requires { place_members to.now.place ≡ member (codes "side") (string sign.now) no_members }
    ensures { IfOk result (λ v. view v ≡ move_tree to.now) }
{
    let mut object = Map::new(alloc);
    put(alloc, &mut object, "row", &to.row)?;
    put(alloc, &mut object, "side", &Name(sign))?;
    Ok(Value::Object(object))
}

#[tactic(auto, unfolding(crate::specs::Trees::move_tree))]
fn onto_the_fit(alloc: Global, to: &Move<Ratio>, value: &Ratio) -> Result<Value, AllocError>
    requires { to.now.place ≡ On value.now }
    ensures { IfOk result (λ v. view v ≡ move_tree to.now) }
{
    let mut object = Map::new(alloc);
    put(alloc, &mut object, "row", &to.row)?;
    put(alloc, &mut object, "side", &Name("*"))?;
    put(alloc, &mut object, "value", value)?;
    Ok(Value::Object(object))
}

impl ToJson for Move<Ratio> {
    ghost tree = { move_tree };

    fn to_json(&self, alloc: Global) -> Result<Value, AllocError> {
        match &self.place {
            Place::Above => off_the_fit(alloc, self, "+"),
            Place::Below => off_the_fit(alloc, self, "-"),
            Place::On(value) => onto_the_fit(alloc, self, value),
        }
    }
}

// The move of a row to a place.
fn moved_to(alloc: Global, row: usize, place: &Place<Ratio>) -> Result<Move<Ratio>, AllocError>
    requires { row < 2 ^ 32 }
    ensures { IfOk result (λ m. m ≡ record { row = row; place = place.now }) }
{
    match place.copy(alloc) {
        Ok(place) => Ok(Move {
            row: row as u32,
            place,
        }),
        Err(_) => Err(AllocError),
    }
}

/// The rows that are on another side later than they were earlier, and where they lie then. A row is
/// counted in 32 bits: past 2^32 of them no memory is left.
pub(crate) fn moves_between(
    alloc: Global,
    earlier: &[Place<Ratio>],
    later: &[Place<Ratio>],
) -> Result<Vec<Move<Ratio>>, AllocError>
    ensures { IfOk result (λ moves. moves.items ≡ moves_from 0 earlier.now later.now) }
{
    if later.len() > u32::MAX as usize {
        return Err(AllocError);
    }
    let mut found = Vec::new(alloc);
    for row in 0..earlier.len() {
        if row >= later.len() {
            return Ok(found);
        }
        let place = &later[row];
        if !earlier[row].has_side_of(place) {
            found.push(moved_to(alloc, row, place)?)?;
        }
    }
    Ok(found)
}

// Whether a move may come next: it names a row that is there, from the least one on, and gives it another
// side.
fn may_move(places: &[Place<Ratio>], least: usize, step: &Move<Ratio>) -> bool
    ensures { result ≡ may_move least places.now step.now }
{
    let row = step.row as usize;
    if row < least {
        return false;
    }
    match places.get(row) {
        Some(place) => !place.has_side_of(&step.place),
        None => false,
    }
}

/// Makes the moves one by one. It is false where a move names a row that isn't above the row of the move
/// before it, a row that isn't there, or the side that the row has already.
pub(crate) fn make_moves(
    alloc: Global,
    places: &mut Vec<Place<Ratio>>,
    moves: &[Move<Ratio>],
) -> Result<bool, OutOfMemory>
    ensures { IfOk result (λ made. moved 0 places.old.items moves.now ≡ (if made then Some places.new.items else None)) }
{
    let mut least = 0;
    for step in moves {
        if !may_move(places.as_slice(), least, step) {
            return Ok(false);
        }
        let row = step.row as usize;
        places[row] = step.place.copy(alloc)?;
        least = row + 1;
    }
    Ok(true)
}
