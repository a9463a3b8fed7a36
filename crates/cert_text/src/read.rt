//! From bytes to the certificate that they are.

ghost use Rattle.std.specs.Prelude.{◌≡◌, ◌≢◌, Ok, Err, Some, None, All, ⊤, codes, length, map, option_and_then, if◌then◌else◌, IfOk, IfErr};
ghost use Rattle.serde_json.specs.Find.{get, as_number, as_u64};
ghost use Rattle.serde_json.specs.View.{view, members_view};
ghost use Rattle.loss_model.specs.Values.{exact_row};
ghost use Rattle.cert_text.specs.Certificates.{kind, anything, interval, segments, top_members, within_limits, version_of, layout_of, or_version, cert_of_data, json_of, cert_of};
ghost use Rattle.cert_text.specs.Contents.{Content, content};
ghost use Rattle.cert_text.specs.Kept.{IsKeptInterval, IsKeptSegment};
ghost use Rattle.cert_text.specs.Keys.{top_behind, top_with};
ghost use Rattle.cert_text.specs.Reading.{field, list};
ghost use Rattle.cert_text.specs.Limits.{IsWithinLimits};
ghost use Rattle.cert_text.specs.declared.read.TopKeys.{TopKeys as keys_type};
ghost use Rattle.cert_text.specs.declared.fault.CertFault.TheVariants.{NotJson};

use crate::cert::Cert;
use crate::chain::segments;
use crate::fault::CertFault;
use crate::keys::{field, members, next, no_more_keys};
use crate::layout::{Layout, Width};
use crate::parts::FromJson;
use crate::path::{under_key, wrong_kind};
use frac_core::{Frac128, List, MOST_COLUMNS, MOST_ROWS};
use loss_model::{IntervalProof, Problem, Row, Segment};
use serde_json::{Category, Value};
use std::alloc::Global;
use std::collections::btree_map::Iter;

// The name of the kind of text.
#[derive(Clone, Copy)]
struct Kind;

impl FromJson for Kind {
    ghost Content = { ⊤ };

    ghost content = { λ _. tt };

    ghost reader = { λ _. kind };

    #[tactic(auto, unfolding(crate::specs::Certificates::kind))]
    fn from_json(alloc: Global, _width: Width, value: &Value) -> Result<Kind, CertFault> {
        let Some(name) = value.as_str() else {
            return Err(wrong_kind(alloc));
        };
        if name == "quantreg-certificate" {
            Ok(Kind)
        } else {
            Err(wrong_kind(alloc))
        }
    }
}

// A value that was looked at before.
#[derive(Clone, Copy)]
struct AnyValue;

impl FromJson for AnyValue {
    ghost Content = { ⊤ };

    ghost content = { λ _. tt };

    ghost reader = { λ _. anything };

    fn from_json(_alloc: Global, _width: Width, _value: &Value) -> Result<AnyValue, CertFault> {
        Ok(AnyValue)
    }
}

#[tactic(auto, unfolding(crate::specs::Reading::field))]
fn segments_field(
    alloc: Global,
    layout: Layout,
    rows: usize,
    rest: &mut Iter<'_, String, Value>,
) -> Result<List<Segment>, CertFault>
    ensures ok { IfOk result (λ xs. field (codes "segments") (segments layout rows) (members_view rest.old)
        ≡ Ok (xs, members_view rest.new)) }
    ensures kept { IfOk result (λ xs. All IsKeptSegment xs) }
    ensures err { IfErr result (λ e. e ≢ CertFault.OutOfMemory → field (codes "segments") (segments layout rows) (members_view rest.old) ≡ Err e) }
{
    let value = next(alloc, "segments", rest)?;
    match segments(alloc, layout, rows, value) {
        Ok(found) => Ok(found),
        Err(fault) => Err(under_key(alloc, "segments", fault)),
    }
}

// The intervals, with numbers of this width.
fn intervals_field(
    alloc: Global,
    width: Width,
    rest: &mut Iter<'_, String, Value>,
) -> Result<List<IntervalProof>, CertFault>
    ensures ok { IfOk result (λ ts. field (codes "intervals") (list (interval width)) (members_view rest.old) ≡ Ok (ts, members_view rest.new)) }
    ensures kept { IfOk result (λ ts. All IsKeptInterval ts) }
    ensures err { IfErr result (λ e. e ≢ CertFault.OutOfMemory → field (codes "intervals") (list (interval width)) (members_view rest.old) ≡ Err e) }
{
    field(alloc, width, "intervals", rest)
}

// The keys of the top before the segments.
#[derive(Drop)]
struct TopKeys {
    columns: u32,
    hi: Frac128,
    intervals: List<IntervalProof>,
    lo: Frac128,
    rows: List<Row<Frac128>>,
}

#[tactic(auto, unfolding(crate::specs::Certificates::top_members))]
fn top_keys(
    alloc: Global,
    layout: Layout,
    rest: &mut Iter<'_, String, Value>,
) -> Result<TopKeys, CertFault>
    ensures ok { IfOk result (λ k. top_members layout (members_view rest.old)
        ≡ top_behind layout (length (map exact_row k.rows)) k (members_view rest.new)) }
    ensures kept { IfOk result (λ k. All IsKeptInterval k.intervals) }
    ensures err { IfErr result (λ e. e ≢ CertFault.OutOfMemory → top_members layout (members_view rest.old) ≡ Err e) }
{
    let columns = field(alloc, Width::Narrow, "columns", rest)?;
    let hi = field(alloc, Width::Narrow, "hi", rest)?;
    let intervals = intervals_field(alloc, layout.width(), rest)?;
    let _kind: Kind = field(alloc, Width::Narrow, "kind", rest)?;
    let lo = field(alloc, Width::Narrow, "lo", rest)?;
    let rows = field(alloc, Width::Narrow, "rows", rest)?;
    Ok(TopKeys {
        columns,
        hi,
        intervals,
        lo,
        rows,
    })
}

// The segments of so many rows, behind which the version stands and nothing else.
fn last_segments(
    alloc: Global,
    layout: Layout,
    rows: usize,
    rest: &mut Iter<'_, String, Value>,
) -> Result<List<Segment>, CertFault>
    ensures ok { IfOk result (λ xs. (k : keys_type) → top_behind layout rows k (members_view rest.old) ≡ Ok (top_with k xs)) }
    ensures kept { IfOk result (λ xs. All IsKeptSegment xs) }
    ensures err { IfErr result (λ e. e ≢ CertFault.OutOfMemory → (k : keys_type) → top_behind layout rows k (members_view rest.old) ≡ Err e) }
{
    let segments = segments_field(alloc, layout, rows, rest)?;
    let _version: AnyValue = field(alloc, Width::Narrow, "version", rest)?;
    no_more_keys(alloc, rest)?;
    Ok(segments)
}

fn top_of(
    alloc: Global,
    layout: Layout,
    rest: &mut Iter<'_, String, Value>,
) -> Result<Cert, CertFault>
    ensures ok { IfOk result (λ cert. top_members layout (members_view rest.old) ≡ Ok (content cert)) }
    ensures err { IfErr result (λ e. e ≢ CertFault.OutOfMemory → top_members layout (members_view rest.old) ≡ Err e) }
{
    let keys = top_keys(alloc, layout, rest)?;
    match last_segments(alloc, layout, keys.rows.as_slice().len(), rest) {
        Ok(segments) => Ok(Cert {
            problem: Problem {
                columns: keys.columns,
                rows: keys.rows,
            },
            lo: keys.lo,
            hi: keys.hi,
            segments,
            intervals: keys.intervals,
        }),
        Err(fault) => {
            drop(keys);
            Err(fault)
        }
    }
}

const MOST_SEGMENTS: usize = 1 << 20;

const MOST_INTERVALS: usize = 8_192;

// Rows times segments.
const MOST_SIDES: usize = 1 << 30;

// Whether a certificate is within the limits.
fn is_within(cert: &Cert) -> bool
    ensures { within_limits (content cert.now) ≡ (if result then Ok (content cert.now) else Err CertFault.TooLarge) }
{
    if cert.problem.columns > MOST_COLUMNS {
        return false;
    }
    if cert.problem.rows.as_slice().len() > MOST_ROWS as usize {
        return false;
    }
    if cert.segments.as_slice().len() > MOST_SEGMENTS {
        return false;
    }
    if cert.intervals.as_slice().len() > MOST_INTERVALS {
        return false;
    }
    if cert.problem.rows.as_slice().len() * cert.segments.as_slice().len() > MOST_SIDES {
        return false;
    }
    true
}

#[tactic(auto, unfolding(crate::specs::Certificates::version_of))]
fn version_of(alloc: Global, value: &Value) -> Result<u64, CertFault>
    ensures ok { IfOk result (λ n. version_of (view value.now) ≡ Ok n) }
    ensures err { IfErr result (λ e. e ≢ CertFault.OutOfMemory → version_of (view value.now) ≡ Err e) }
{
    match value.get("version").and_then(Value::as_u64) {
        Some(version) => Ok(version),
        None => Err(under_key(alloc, "version", wrong_kind(alloc))),
    }
}

fn layout_of(version: u64) -> Result<Layout, CertFault>
    ensures ok { IfOk result (λ layout. or_version (layout_of version) ≡ Ok layout) }
    ensures err { IfErr result (λ e. or_version (layout_of version) ≡ Err e) }
{
    match version {
        1 => Ok(Layout::Full),
        2 => Ok(Layout::Chained),
        3 => Ok(Layout::Wide),
        _ => Err(CertFault::Version),
    }
}

#[tactic(auto, unfolding(crate::specs::Certificates::cert_of_data))]
fn cert_of_value(alloc: Global, value: &Value) -> Result<Cert, CertFault>
    ensures ok { IfOk result (λ cert. cert_of_data (view value.now) ≡ Ok (content cert)) }
    ensures err { IfErr result (λ e. e ≢ CertFault.OutOfMemory → cert_of_data (view value.now) ≡ Err e) }
{
    let found = members(alloc, value)?;
    let version = version_of(alloc, value)?;
    let layout = layout_of(version)?;
    let cert = top_of(alloc, layout, &mut found.iter())?;
    if !is_within(&cert) {
        drop(cert);
        return Err(CertFault::TooLarge);
    }
    Ok(cert)
}

#[tactic(auto, unfolding(crate::specs::Certificates::json_of))]
fn parse(alloc: Global, bytes: &[u8]) -> Result<Value, CertFault>
    ensures ok { IfOk result (λ v. json_of bytes.now ≡ Some (view v)) }
    ensures err { IfErr result (λ e. e ≢ CertFault.OutOfMemory → (e ≡ NotJson) × (json_of bytes.now ≡ None)) }
{
    let Ok(text) = std::str::from_utf8(bytes) else {
        return Err(CertFault::NotJson);
    };
    match Value::from_str(alloc, text) {
        Ok(value) => Ok(value),
        Err(error) => {
            if error.classify() == Category::Memory {
                return Err(CertFault::OutOfMemory);
            }
            Err(CertFault::NotJson)
        }
    }
}

/// Reads the text of a certificate.
///
/// The faults are looked for in this order. `NotJson` comes exactly where the bytes are no JSON in UTF-8, by
/// `serde_json`, which takes at most 127 levels of nesting and the last value of a key that stands twice.
/// `Shape` comes with an empty path where the top is no object, and with the path `/version` where it has no
/// unsigned number there; `Version` where that is none of 1 to 3. Then every object is gone through key by
/// key, in the order of their bytes, and every list item by item, and what a key has comes before the next key:
/// `Shape` comes at the first key that is missing or unknown or whose value is of another kind, and `Number` at
/// the first string that is no number text of `frac_core`, or too wide. In version 3 a number of the segments and the
/// intervals is one of digits, with a sign in front or without, or two with a stroke between them, the second of
/// which isn't 0, and of no more than 65,536 digits each; and the segments stand as in version 2 where the second has
/// `moves`, else as in version 1. In version 2 `Shape` comes too at the
/// `sides` of the first segment, where they aren't one per row or their stars aren't as many as the dual values
/// of either end; and at the `moves` of a later one, where a move names a row that isn't there, a row that isn't
/// above that of the move before it, or the side that the row has already, or where the stars afterwards aren't
/// as many as the dual values of the high end. At last `TooLarge` comes where there are more than 128 columns,
/// 16,384 rows, 2^20 segments or 8,192 intervals, or where rows times segments exceed 2^30.
#[tactic(auto, unfolding(crate::specs::Certificates::cert_of))]
pub fn read_cert(alloc: Global, bytes: &[u8]) -> Result<Cert, CertFault>
    ensures ok { IfOk result (λ cert. cert_of bytes.now ≡ Ok (content cert)) }
    ensures err { IfErr result (λ e. e ≢ CertFault.OutOfMemory → cert_of bytes.now ≡ Err e) }
{
    let value = parse(alloc, bytes)?;
    cert_of_value(alloc, &value)
}
