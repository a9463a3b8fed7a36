//! Segments of a process.

ghost use Rattle.std.specs.Prelude.{◌≡◌, ◌≢◌, ℕ, Option, Ok, Err, Some, None, if◌then◌else◌, IfOk, IfErr};
ghost use Rattle.loss_model.specs.declared.process.Segment.{Segment as segment_type};
ghost use Rattle.rational_laws.specs.Fraction.{Fraction};
ghost use Rattle.serde_json.specs.Data.{Members};
ghost use Rattle.serde_json.specs.View.{view, members_view};
ghost use Rattle.cert_text.specs.Reading.{Reading};
ghost use Rattle.cert_text.specs.Chains.{is_filled};
ghost use Rattle.cert_text.specs.Kept.{IsKeptSegment};
ghost use Rattle.cert_text.specs.Certificates.{if_filled, segment_members, segment};
ghost use Rattle.cert_text.specs.Keys.{segment_behind, segment_behind_front, segment_from, two_ratios};
ghost use Rattle.cert_text.specs.declared.segment.FrontKeys.{FrontKeys};
ghost use Rattle.cert_text.specs.Trees.{segment_tree};

use crate::fault::CertFault;
use crate::keys::{field, members, no_more_keys};
use crate::layout::Width;
use crate::numbers::ratios;
use crate::parts::{FromJson, ToJson, put};
use crate::path::{under_key, wrong_kind};
use crate::vertex::{Sides, Signs, vertex};
use frac_core::{List, OutOfMemory};
use loss_model::Segment;
use ratio::Ratio;
use serde_json::{Map, Value};
use std::alloc::{AllocError, Global};
use std::collections::btree_map::Iter;

// The keys of a segment in full, in two parts, so that the lists are let go once, and not behind each key.
#[derive(Drop)]
struct SegmentKeys {
    front: FrontKeys,
    back: BackKeys,
}

// The first of them, which are lists.
#[derive(Drop)]
struct FrontKeys {
    basic_hi: List<Ratio>,
    basic_lo: List<Ratio>,
    coef: List<Ratio>,
}

// Two numbers.
#[derive(Drop)]
struct Two {
    first: Ratio,
    second: Ratio,
}

// Those behind them: the quantiles and the losses at the high and the low end, and the sides.
#[derive(Drop)]
struct BackKeys {
    ends: Two,
    losses: Two,
    sides: Sides,
}

#[tactic(auto, unfolding(crate::specs::Certificates::segment_members))]
fn front_keys(
    alloc: Global,
    width: Width,
    rest: &mut Iter<'_, String, Value>,
) -> Result<FrontKeys, CertFault>
    ensures ok { IfOk result (λ k. (rows : Option ℕ) → segment_members width rows (members_view rest.old) ≡ segment_behind_front width rows k (members_view rest.new)) }
    ensures err { IfErr result (λ e. e ≢ CertFault.OutOfMemory → (rows : Option ℕ) → segment_members width rows (members_view rest.old) ≡ Err e) }
{
    let basic_hi = ratios(alloc, width, "basic_hi", rest)?;
    let basic_lo = ratios(alloc, width, "basic_lo", rest)?;
    let coef = ratios(alloc, width, "coef", rest)?;
    Ok(FrontKeys {
        basic_hi,
        basic_lo,
        coef,
    })
}

// The numbers that the next two keys have, which must be these.
fn two_ratios(
    alloc: Global,
    width: Width,
    first: &str,
    second: &str,
    rest: &mut Iter<'_, String, Value>,
) -> Result<Two, CertFault>
    ensures ok { IfOk result (λ two. (behind : Fraction → Fraction → Members → Reading segment_type) → two_ratios width first.now second.now (members_view rest.old) behind ≡ behind two.first two.second (members_view rest.new)) }
    ensures err { IfErr result (λ e. e ≢ CertFault.OutOfMemory → (behind : Fraction → Fraction → Members → Reading segment_type) → two_ratios width first.now second.now (members_view rest.old) behind ≡ Err e) }
{
    let first: Ratio = field(alloc, width, first, rest)?;
    match field(alloc, width, second, rest) {
        Ok(second) => Ok(Two { first, second }),
        Err(fault) => {
            drop(first);
            Err(fault)
        }
    }
}

fn back_keys(
    alloc: Global,
    width: Width,
    rest: &mut Iter<'_, String, Value>,
) -> Result<BackKeys, CertFault>
    ensures ok { IfOk result (λ k. (rows : Option ℕ) → (front : FrontKeys) → segment_behind_front width rows front (members_view rest.old) ≡ segment_behind rows (record { front = front; back = k }) (members_view rest.new)) }
    ensures err { IfErr result (λ e. e ≢ CertFault.OutOfMemory → (rows : Option ℕ) → (front : FrontKeys) → segment_behind_front width rows front (members_view rest.old) ≡ Err e) }
{
    let ends = two_ratios(alloc, width, "hi", "lo", rest)?;
    match two_ratios(alloc, width, "loss_hi", "loss_lo", rest) {
        Ok(losses) => match field(alloc, width, "sides", rest) {
            Ok(sides) => Ok(BackKeys {
                ends,
                losses,
                sides,
            }),
            Err(fault) => {
                drop(ends);
                drop(losses);
                Err(fault)
            }
        },
        Err(fault) => {
            drop(ends);
            Err(fault)
        }
    }
}

fn segment_keys(
    alloc: Global,
    width: Width,
    rest: &mut Iter<'_, String, Value>,
) -> Result<SegmentKeys, CertFault>
    ensures ok { IfOk result (λ k. (rows : Option ℕ) → segment_members width rows (members_view rest.old) ≡ segment_behind rows k (members_view rest.new)) }
    ensures err { IfErr result (λ e. e ≢ CertFault.OutOfMemory → (rows : Option ℕ) → segment_members width rows (members_view rest.old) ≡ Err e) }
{
    let front = front_keys(alloc, width, rest)?;
    match back_keys(alloc, width, rest) {
        Ok(back) => Ok(SegmentKeys { front, back }),
        Err(fault) => {
            drop(front);
            Err(fault)
        }
    }
}

impl SegmentKeys {
    // The segment of these keys.
    fn segment(self, alloc: Global) -> Result<Segment, OutOfMemory>
        ensures segment { IfOk result (λ s. s ≡ segment_from self) }
        ensures kept { IfOk result IsKeptSegment }
    {
        let SegmentKeys { front, back } = self;
        let FrontKeys {
            basic_hi,
            basic_lo,
            coef,
        } = front;
        let BackKeys {
            ends,
            losses,
            sides,
        } = back;
        match vertex(alloc, sides, coef) {
            Ok(vertex) => Ok(Segment {
                lo: ends.second,
                hi: ends.first,
                vertex,
                basic_lo,
                basic_hi,
                loss_lo: losses.second,
                loss_hi: losses.first,
            }),
            Err(OutOfMemory) => {
                drop(basic_hi);
                drop(basic_lo);
                drop(ends);
                drop(losses);
                Err(OutOfMemory)
            }
        }
    }
}

fn segment_of(
    alloc: Global,
    width: Width,
    rows: Option<usize>,
    rest: &mut Iter<'_, String, Value>,
) -> Result<Segment, CertFault>
    ensures ok { IfOk result (λ segment. segment_members width rows (members_view rest.old) ≡ Ok segment) }
    ensures kept { IfOk result IsKeptSegment }
    ensures err { IfErr result (λ e. e ≢ CertFault.OutOfMemory → segment_members width rows (members_view rest.old) ≡ Err e) }
{
    let keys = segment_keys(alloc, width, rest)?;
    let segment = keys.segment(alloc)?;
    if !is_filled_if_told(rows, &segment) {
        drop(segment);
        return Err(under_key(alloc, "sides", wrong_kind(alloc)));
    }
    match no_more_keys(alloc, rest) {
        Ok(()) => Ok(segment),
        Err(fault) => {
            drop(segment);
            Err(fault)
        }
    }
}

/// One side per row, and as many dual values at either end as rows that are basic.
pub(crate) fn is_filled(rows: usize, segment: &Segment) -> bool
    requires { IsKeptSegment segment.now }
    ensures { result ≡ is_filled rows segment.now.vertex.sides segment.now.basic_lo segment.now.basic_hi }
{
    let stars = segment.vertex.basis.rows.as_slice().len();
    if segment.vertex.sides.as_slice().len() != rows {
        return false;
    }
    if segment.basic_lo.as_slice().len() != stars {
        return false;
    }
    segment.basic_hi.as_slice().len() == stars
}

// The same where the number of rows is told.
fn is_filled_if_told(rows: Option<usize>, segment: &Segment) -> bool
    requires { IsKeptSegment segment.now }
    ensures { if_filled rows segment.now.vertex.sides segment.now.basic_lo segment.now.basic_hi ≡ (if result then Some tt else None) }
{
    match rows {
        Some(rows) => is_filled(rows, segment),
        None => true,
    }
}

/// A segment in full; where the number of rows is told, it must be filled.
#[tactic(auto, unfolding(crate::specs::Certificates::segment))]
pub(crate) fn full_segment(
    alloc: Global,
    width: Width,
    rows: Option<usize>,
    value: &Value,
) -> Result<Segment, CertFault>
    ensures ok { IfOk result (λ s. segment width rows (view value.now) ≡ Ok s) }
    ensures kept { IfOk result IsKeptSegment }
    ensures err { IfErr result (λ e. e ≢ CertFault.OutOfMemory → segment width rows (view value.now) ≡ Err e) }
{
    let found = members(alloc, value)?;
    segment_of(alloc, width, rows, &mut found.iter())
}

impl FromJson for Segment {
    ghost Content = { segment_type };

    ghost content = { λ s. s };

    ghost reader = { λ width. segment width None };

    ghost IsKept = { IsKeptSegment };

    fn from_json(alloc: Global, width: Width, value: &Value) -> Result<Segment, CertFault> {
        full_segment(alloc, width, None, value)
    }
}

impl ToJson for Segment {
    ghost tree = { segment_tree };

    #[tactic(auto, unfolding(crate::specs::Trees::segment_tree))]
    fn to_json(&self, alloc: Global) -> Result<Value, AllocError> {
        let mut object = Map::new(alloc);
        put(alloc, &mut object, "basic_hi", &self.basic_hi)?;
        put(alloc, &mut object, "basic_lo", &self.basic_lo)?;
        put(alloc, &mut object, "coef", &self.vertex.coef)?;
        put(alloc, &mut object, "hi", &self.hi)?;
        put(alloc, &mut object, "lo", &self.lo)?;
        put(alloc, &mut object, "loss_hi", &self.loss_hi)?;
        put(alloc, &mut object, "loss_lo", &self.loss_lo)?;
        put(
            alloc,
            &mut object,
            "sides",
            &Signs(self.vertex.sides.as_slice()),
        )?;
        Ok(Value::Object(object))
    }
}
