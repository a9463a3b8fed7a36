//! Chains of segments: whether segments are one, and how one is read and written.

ghost use Rattle.std.specs.Prelude.{◌≡◌, ◌≢◌, Ok, Err, Some, None, All, length, map, option_copied, IfOk, IfErr};
ghost use Rattle.std.specs.List.{last_or};
ghost use Rattle.serde_json.specs.View.{view, items_view};
ghost use Rattle.cert_text.specs.Chains.{is_equal, keeps_value, keep_values, follows, follows_any, are_chained, is_chained};
ghost use Rattle.cert_text.specs.Contents.{content};
ghost use Rattle.cert_text.specs.Kept.{IsKeptSegment};
ghost use Rattle.cert_text.specs.Certificates.{either_segments, is_linked, linked_segment, segment as full, segments};
ghost use Rattle.cert_text.specs.Reading.{items_from, linked_list, list};
ghost use Rattle.cert_text.specs.Trees.{linked_tree, linked_trees, segments_tree};

use crate::cert::Cert;
use crate::fault::CertFault;
use crate::later::{high_places, later_segment, later_to_json, low_places};
use crate::layout::{Layout, Width};
use crate::parts::{FromJson, ToJson};
use crate::path::{under_item, wrong_kind};
use crate::place::Place;
use crate::segment::{full_segment, is_filled};
use frac_core::List;
use loss_model::Segment;
use ratio::Ratio;
use serde_json::Value;
use std::alloc::{AllocError, Global};
use std::cmp::Ordering;

// Fractions in lowest terms are equal where both parts are.
fn is_equal(x: &Ratio, y: &Ratio) -> bool
    ensures { result ≡ is_equal x.now y.now }
{
    match x.numerator().compare(y.numerator()) {
        Ordering::Less => false,
        Ordering::Equal => x.denominator().compare(y.denominator()).is_eq(),
        Ordering::Greater => false,
    }
}

// A row that stays on the fit keeps its dual value.
fn keeps_value(before: &Place<Ratio>, now: &Place<Ratio>) -> bool
    ensures { result ≡ keeps_value before.now now.now }
{
    match (before, now) {
        (Place::On(x), Place::On(y)) => is_equal(x, y),
        _ => true,
    }
}

fn keep_values(before: &[Place<Ratio>], now: &[Place<Ratio>]) -> bool
    ensures { result ≡ keep_values before.now now.now }
{
    for row in 0..before.len() {
        if row >= now.len() {
            return true;
        }
        if !keeps_value(&before[row], &now[row]) {
            return false;
        }
    }
    true
}

fn follows(alloc: Global, before: &Segment, segment: &Segment) -> Result<bool, AllocError>
    ensures { IfOk result (λ b. b ≡ follows before.now segment.now) }
{
    if !is_equal(&before.hi, &segment.lo) {
        return Ok(false);
    }
    if !is_equal(&before.loss_hi, &segment.loss_lo) {
        return Ok(false);
    }
    let earlier = high_places(alloc, before)?;
    let later = low_places(alloc, segment)?;
    Ok(keep_values(earlier.as_slice(), later.as_slice()))
}

fn follows_any(
    alloc: Global,
    before: Option<&Segment>,
    segment: &Segment,
) -> Result<bool, AllocError>
    ensures { IfOk result (λ b. b ≡ follows_any (option_copied before.entry) segment.now) }
{
    match before {
        Some(before) => follows(alloc, before, segment),
        None => Ok(true),
    }
}

// The last segment.
fn last<'a>(segments: &'a [Segment]) -> Option<&'a Segment>
    ensures { option_copied result ≡ last_or None segments.now }
{
    segments.last()
}

/// Whether the text may say of each later segment only what changes.
pub(crate) fn is_chained(alloc: Global, cert: &Cert) -> Result<bool, AllocError>
    ensures { IfOk result (λ b. b ≡ is_chained (content cert.now)) }
{
    let rows = cert.problem.rows.as_slice().len();
    let segments = cert.segments.as_slice();
    for i in 0..segments.len() {
        let segment = &segments[i];
        if !is_filled(rows, segment) {
            return Ok(false);
        }
        if !follows_any(alloc, last(&segments[..i]), segment)? {
            return Ok(false);
        }
    }
    Ok(true)
}

// The segment behind another one, or the first in full.
fn linked_segment(
    alloc: Global,
    width: Width,
    rows: usize,
    before: Option<&Segment>,
    value: &Value,
) -> Result<Segment, CertFault>
    ensures ok { IfOk result (λ s. linked_segment width rows (option_copied before.entry) (view value.now) ≡ Ok s) }
    ensures kept { IfOk result IsKeptSegment }
    ensures err { IfErr result (λ e. e ≢ CertFault.OutOfMemory → linked_segment width rows (option_copied before.entry) (view value.now) ≡ Err e) }
{
    match before {
        Some(before) => later_segment(alloc, width, before, value),
        None => full_segment(alloc, width, Some(rows), value),
    }
}

fn linked_items(
    alloc: Global,
    width: Width,
    rows: usize,
    values: &[Value],
) -> Result<Vec<Segment>, CertFault>
    ensures ok { IfOk result (λ xs. items_from (linked_segment width rows) None 0 (items_view values.now) ≡ Ok xs.items) }
    ensures kept { IfOk result (λ xs. All IsKeptSegment xs.items) }
    ensures err { IfErr result (λ e. e ≢ CertFault.OutOfMemory → items_from (linked_segment width rows) None 0 (items_view values.now) ≡ Err e) }
{
    let mut found = Vec::with_capacity(alloc, values.len())?;
    for i in 0..values.len() {
        match linked_segment(alloc, width, rows, last(found.as_slice()), &values[i]) {
            Ok(segment) => found.push(segment)?,
            Err(fault) => return Err(under_item(alloc, i, fault)),
        }
    }
    Ok(found)
}

// Past this many sides, twice as many as a certificate may have, no memory is looked for: a short text can
// ask for many.
const MOST_SIDES_MADE: usize = 1 << 31;

#[tactic(auto, unfolding(crate::specs::Reading::linked_list))]
fn linked_list(
    alloc: Global,
    width: Width,
    rows: usize,
    value: &Value,
) -> Result<List<Segment>, CertFault>
    ensures ok { IfOk result (λ xs. linked_list (linked_segment width rows) (view value.now) ≡ Ok xs) }
    ensures kept { IfOk result (λ xs. All IsKeptSegment xs) }
    ensures err { IfErr result (λ e. e ≢ CertFault.OutOfMemory → linked_list (linked_segment width rows) (view value.now) ≡ Err e) }
{
    let Some(values) = value.as_array() else {
        return Err(wrong_kind(alloc));
    };
    if rows.saturating_mul(values.len()) > MOST_SIDES_MADE {
        return Err(CertFault::OutOfMemory);
    }
    match linked_items(alloc, width, rows, values.as_slice()) {
        Ok(found) => Ok(List::from(found)),
        Err(fault) => Err(fault),
    }
}

// The segments, each in full.
fn full_list(alloc: Global, width: Width, value: &Value) -> Result<List<Segment>, CertFault>
    ensures ok { IfOk result (λ xs. list (full width None) (view value.now) ≡ Ok xs) }
    ensures kept { IfOk result (λ xs. All IsKeptSegment xs) }
    ensures err { IfErr result (λ e. e ≢ CertFault.OutOfMemory → list (full width None) (view value.now) ≡ Err e) }
{
    List::from_json(alloc, width, value)
}

// Whether the second segment says what changes.
fn is_linked(value: &Value) -> bool
    ensures { result ≡ is_linked (view value.now) }
{
    let Some(values) = value.as_array() else {
        return false;
    };
    if values.len() < 2 {
        return false;
    }
    values[1].get("moves").is_some()
}

// The segments in either way, of any size.
fn either_segments(alloc: Global, rows: usize, value: &Value) -> Result<List<Segment>, CertFault>
    ensures ok { IfOk result (λ xs. either_segments rows (view value.now) ≡ Ok xs) }
    ensures kept { IfOk result (λ xs. All IsKeptSegment xs) }
    ensures err { IfErr result (λ e. e ≢ CertFault.OutOfMemory → either_segments rows (view value.now) ≡ Err e) }
{
    if is_linked(value) {
        linked_list(alloc, Width::Long, rows, value)
    } else {
        full_list(alloc, Width::Long, value)
    }
}

/// The segments of a problem with so many rows.
pub(crate) fn segments(
    alloc: Global,
    layout: Layout,
    rows: usize,
    value: &Value,
) -> Result<List<Segment>, CertFault>
    ensures ok { IfOk result (λ xs. segments layout rows (view value.now) ≡ Ok xs) }
    ensures kept { IfOk result (λ xs. All IsKeptSegment xs) }
    ensures err { IfErr result (λ e. e ≢ CertFault.OutOfMemory → segments layout rows (view value.now) ≡ Err e) }
{
    match layout {
        Layout::Full => full_list(alloc, Width::Narrow, value),
        Layout::Chained => linked_list(alloc, Width::Narrow, rows, value),
        Layout::Wide => either_segments(alloc, rows, value),
    }
}

fn linked_to_json(
    alloc: Global,
    before: Option<&Segment>,
    segment: &Segment,
) -> Result<Value, AllocError>
    ensures { IfOk result (λ v. view v ≡ linked_tree (option_copied before.entry) segment.now) }
{
    match before {
        Some(before) => later_to_json(alloc, before, segment),
        None => segment.to_json(alloc),
    }
}

fn chain_to_json(alloc: Global, segments: &[Segment]) -> Result<Vec<Value>, AllocError>
    ensures { IfOk result (λ vs. map view vs.items ≡ linked_trees None segments.now) }
{
    let mut found = Vec::with_capacity(alloc, segments.len())?;
    for i in 0..segments.len() {
        found.push(linked_to_json(alloc, last(&segments[..i]), &segments[i])?)?;
    }
    Ok(found)
}

/// Segments as they are written: as a chain, or each in full.
#[derive(Clone, Copy)]
pub(crate) struct LaidOut<'a> {
    pub is_chained: bool,
    pub segments: &'a List<Segment>,
}

impl ToJson for LaidOut<'_> {
    ghost tree = { λ s. segments_tree s.is_chained s.segments.now };

    fn to_json(&self, alloc: Global) -> Result<Value, AllocError> {
        if self.is_chained {
            return Ok(Value::Array(chain_to_json(alloc, self.segments.as_slice())?));
        }
        self.segments.to_json(alloc)
    }
}
