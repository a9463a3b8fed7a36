//! Segments of which only what changes is written.

ghost use Rattle.std.specs.Prelude.{◌≡◌, ◌≢◌, Ok, Err, codes, map, IfOk, IfErr};
ghost use Rattle.loss_model.specs.declared.process.Segment.{Segment as segment_type};
ghost use Rattle.serde_json.specs.View.{view, members_view};
ghost use Rattle.cert_text.specs.Chains.{high_places, low_places, moves_between, moved, side_at, values_at};
ghost use Rattle.cert_text.specs.Kept.{IsKeptSegment};
ghost use Rattle.cert_text.specs.Certificates.{if_as_many, later_members, later_segment, one_move, vertex_of};
ghost use Rattle.cert_text.specs.Keys.{later_behind, later_from};
ghost use Rattle.cert_text.specs.Reading.{field, fitting, list, no_more_keys, on_read};
ghost use Rattle.cert_text.specs.Trees.{later_tree};

use crate::fault::CertFault;
use crate::keys::{field, members, no_more_keys};
use crate::layout::Width;
use crate::moves::{Move, make_moves, moves_between};
use crate::numbers::ratios;
use crate::parts::put;
use crate::path::{under_key, wrong_kind};
use crate::place::{Place, places, sides, values};
use crate::vertex::{Sides, vertex};
use frac_core::{List, OutOfMemory};
use loss_model::{Segment, Vertex};
use ratio::Ratio;
use serde_json::{Map, Value};
use std::alloc::{AllocError, Global};
use std::collections::btree_map::Iter;

/// Where the rows lie at the low end of a segment.
pub(crate) fn low_places(alloc: Global, segment: &Segment) -> Result<Vec<Place<Ratio>>, AllocError>
    ensures { IfOk result (λ ps. ps.items ≡ low_places segment.now) }
{
    places(
        alloc,
        segment.vertex.sides.as_slice(),
        segment.basic_lo.as_slice(),
    )
}

/// Where the rows lie at the high end of a segment.
pub(crate) fn high_places(alloc: Global, segment: &Segment) -> Result<Vec<Place<Ratio>>, AllocError>
    ensures { IfOk result (λ ps. ps.items ≡ high_places segment.now) }
{
    places(
        alloc,
        segment.vertex.sides.as_slice(),
        segment.basic_hi.as_slice(),
    )
}

// Where the rows lie after the moves from the high end of a segment.
fn low_end(
    alloc: Global,
    before: &Segment,
    moves: &List<Move<Ratio>>,
) -> Result<List<Place<Ratio>>, CertFault>
    ensures ok { let after = moved 0 (high_places before.now) moves.now in
        IfOk result (λ low. fitting (codes "moves") after ≡ Ok low) }
    ensures err { let after = moved 0 (high_places before.now) moves.now in
        IfErr result (λ e. e ≢ CertFault.OutOfMemory → fitting (codes "moves") after ≡ Err e) }
{
    let mut places = high_places(alloc, before)?;
    if !make_moves(alloc, &mut places, moves.as_slice())? {
        return Err(under_key(alloc, "moves", wrong_kind(alloc)));
    }
    Ok(List::from(places))
}

// The rows on the fit are as many as the dual values.
fn as_many(alloc: Global, rows: &List<u32>, values: &List<Ratio>) -> Result<(), CertFault>
    ensures ok { IfOk result (λ _. fitting (codes "moves") (if_as_many rows.now values.now) ≡ Ok tt) }
    ensures err { IfErr result (λ e. e ≢ CertFault.OutOfMemory
        → fitting (codes "moves") (if_as_many rows.now values.now) ≡ Err e) }
{
    if rows.as_slice().len() == values.as_slice().len() {
        Ok(())
    } else {
        Err(under_key(alloc, "moves", wrong_kind(alloc)))
    }
}

// The moves of a segment behind another one.
fn moves_field(
    alloc: Global,
    width: Width,
    rest: &mut Iter<'_, String, Value>,
) -> Result<List<Move<Ratio>>, CertFault>
    ensures ok { IfOk result (λ ms. field (codes "moves") (list (one_move width)) (members_view rest.old) ≡ Ok (ms, members_view rest.new)) }
    ensures err { IfErr result (λ e. e ≢ CertFault.OutOfMemory → field (codes "moves") (list (one_move width)) (members_view rest.old) ≡ Err e) }
{
    field(alloc, width, "moves", rest)
}

// The keys of a segment behind another one.
#[derive(Drop)]
struct LaterKeys {
    basic_hi: List<Ratio>,
    coef: List<Ratio>,
    hi: Ratio,
    loss_hi: Ratio,
    moves: List<Move<Ratio>>,
}

#[tactic(auto, unfolding(crate::specs::Certificates::later_members))]
fn later_keys(
    alloc: Global,
    width: Width,
    rest: &mut Iter<'_, String, Value>,
) -> Result<LaterKeys, CertFault>
    ensures ok { IfOk result (λ k. (before : segment_type) → later_members width before (members_view rest.old) ≡ later_behind before k (members_view rest.new)) }
    ensures err { IfErr result (λ e. e ≢ CertFault.OutOfMemory → (before : segment_type) → later_members width before (members_view rest.old) ≡ Err e) }
{
    let basic_hi = ratios(alloc, width, "basic_hi", rest)?;
    let coef = ratios(alloc, width, "coef", rest)?;
    let hi = field(alloc, width, "hi", rest)?;
    let loss_hi = field(alloc, width, "loss_hi", rest)?;
    let moves = moves_field(alloc, width, rest)?;
    Ok(LaterKeys {
        basic_hi,
        coef,
        hi,
        loss_hi,
        moves,
    })
}

// The rows on the fit are as many as the dual values, and no key is left.
fn whole_later(
    alloc: Global,
    segment: &Segment,
    rest: &mut Iter<'_, String, Value>,
) -> Result<(), CertFault>
    ensures ok { let counted = fitting (codes "moves") (if_as_many segment.now.vertex.basis.rows segment.now.basic_hi) in
        IfOk result (λ _. (counted ≡ Ok tt) × (no_more_keys (members_view rest.old) ≡ Ok tt)) }
    ensures err { let counted = fitting (codes "moves") (if_as_many segment.now.vertex.basis.rows segment.now.basic_hi) in
        IfErr result (λ e. e ≢ CertFault.OutOfMemory → on_read counted (λ _. no_more_keys (members_view rest.old)) ≡ Err e) }
{
    as_many(alloc, &segment.vertex.basis.rows, &segment.basic_hi)?;
    no_more_keys(alloc, rest)?;
    Ok(())
}

// The quantile and the loss where a segment begins, which are those where the one before it ends.
#[derive(Drop)]
struct Ends {
    lo: Ratio,
    loss_lo: Ratio,
}

fn ends_of(alloc: Global, before: &Segment) -> Result<Ends, OutOfMemory>
    ensures lo { IfOk result (λ ends. ends.lo ≡ before.now.hi) }
    ensures loss { IfOk result (λ ends. ends.loss_lo ≡ before.now.loss_hi) }
{
    let lo = before.hi.copy(alloc)?;
    let loss_lo = before.loss_hi.copy(alloc)?;
    Ok(Ends { lo, loss_lo })
}

// What a segment has at its low end.
#[derive(Drop)]
struct Low {
    vertex: Vertex,
    basic: List<Ratio>,
}

// The vertex with the rows where they are told to lie, and their dual values.
fn low_of(alloc: Global, low: &List<Place<Ratio>>, coef: List<Ratio>) -> Result<Low, CertFault>
    ensures vertex { IfOk result (λ l. l.vertex ≡ vertex_of (map side_at low.now) coef) }
    ensures basic { IfOk result (λ l. l.basic ≡ values_at low.now) }
    ensures memory { IfErr result (λ e. e ≡ CertFault.OutOfMemory) }
{
    let sides = Sides(sides(alloc, low)?);
    let vertex = vertex(alloc, sides, coef)?;
    let basic = values(alloc, low)?;
    Ok(Low { vertex, basic })
}

impl LaterKeys {
    // The segment behind another one, with the rows at its low end where they are told to lie.
    fn segment(
        self,
        alloc: Global,
        before: &Segment,
        low: &List<Place<Ratio>>,
    ) -> Result<Segment, CertFault>
        ensures segment { IfOk result (λ s. s ≡ later_from before.now self low.now) }
        ensures kept { IfOk result IsKeptSegment }
        ensures memory { IfErr result (λ e. e ≡ CertFault.OutOfMemory) }
    {
        let ends = ends_of(alloc, before)?;
        let low = low_of(alloc, low, self.coef)?;
        Ok(Segment {
            lo: ends.lo,
            hi: self.hi,
            vertex: low.vertex,
            basic_lo: low.basic,
            basic_hi: self.basic_hi,
            loss_lo: ends.loss_lo,
            loss_hi: self.loss_hi,
        })
    }
}

fn later_of(
    alloc: Global,
    width: Width,
    before: &Segment,
    rest: &mut Iter<'_, String, Value>,
) -> Result<Segment, CertFault>
    ensures ok { IfOk result (λ s. later_members width before.now (members_view rest.old) ≡ Ok s) }
    ensures kept { IfOk result IsKeptSegment }
    ensures err { IfErr result (λ e. e ≢ CertFault.OutOfMemory → later_members width before.now (members_view rest.old) ≡ Err e) }
{
    let keys = later_keys(alloc, width, rest)?;
    let low = match low_end(alloc, before, &keys.moves) {
        Ok(low) => low,
        Err(fault) => {
            drop(keys);
            return Err(fault);
        }
    };
    let segment = keys.segment(alloc, before, &low)?;
    match whole_later(alloc, &segment, rest) {
        Ok(()) => Ok(segment),
        Err(fault) => {
            drop(segment);
            Err(fault)
        }
    }
}

/// A segment behind another one.
#[tactic(auto, unfolding(crate::specs::Certificates::later_segment))]
pub(crate) fn later_segment(
    alloc: Global,
    width: Width,
    before: &Segment,
    value: &Value,
) -> Result<Segment, CertFault>
    ensures ok { IfOk result (λ s. later_segment width before.now (view value.now) ≡ Ok s) }
    ensures kept { IfOk result IsKeptSegment }
    ensures err { IfErr result (λ e. e ≢ CertFault.OutOfMemory → later_segment width before.now (view value.now) ≡ Err e) }
{
    let found = members(alloc, value)?;
    later_of(alloc, width, before, &mut found.iter())
}

// The moves from one segment to the next.
fn moves(
    alloc: Global,
    before: &Segment,
    segment: &Segment,
) -> Result<List<Move<Ratio>>, AllocError>
    ensures { IfOk result (λ moves. moves ≡ moves_between before.now segment.now) }
{
    let earlier = high_places(alloc, before)?;
    let later = low_places(alloc, segment)?;
    let found = moves_between(alloc, earlier.as_slice(), later.as_slice())?;
    Ok(List::from(found))
}

/// What changes from one segment to the next.
#[tactic(auto, unfolding(crate::specs::Trees::later_tree))]
pub(crate) fn later_to_json(
    alloc: Global,
    before: &Segment,
    segment: &Segment,
) -> Result<Value, AllocError>
    ensures { IfOk result (λ v. view v ≡ later_tree before.now segment.now) }
{
    let moves = moves(alloc, before, segment)?;
    let mut object = Map::new(alloc);
    put(alloc, &mut object, "basic_hi", &segment.basic_hi)?;
    put(alloc, &mut object, "coef", &segment.vertex.coef)?;
    put(alloc, &mut object, "hi", &segment.hi)?;
    put(alloc, &mut object, "loss_hi", &segment.loss_hi)?;
    put(alloc, &mut object, "moves", &moves)?;
    Ok(Value::Object(object))
}
