//! Steps of predictions, and their rearrangements.
//!
//! A fit is asked by entries, offsets, a low end, and the high end and the coefficients of each segment; steps by the high end and the
//! value of each, from 0.

ghost use Rattle.std.specs.Prelude.{◌≡◌, ◌+◌, ◌<◌, ◌≤◌, ◌^◌, All, IsTrue, length};

use crate::grams::widened;
use crate::numbers::numbers_of;
use crate::ratios::widened as widened_number;
use crate::told::Told;
use frac_core::{Frac128, List};
use loss_model::{Basis, Process, Segment, Trail, Vertex};
use predict_steps::{Step, rearrange, steps};
use ratio::Ratio;
use std::alloc::Global;

// Of a low end, a high end and coefficients.
fn segment(alloc: Global, lo: Ratio, hi: Ratio, coef: List<Ratio>) -> Option<Segment> {
    let basis = Basis {
        rows: List::new(alloc),
    };
    Some(Segment {
        lo,
        hi,
        vertex: Vertex {
            basis,
            sides: List::new(alloc),
            coef,
        },
        basic_lo: List::new(alloc),
        basic_hi: List::new(alloc),
        loss_lo: Ratio::zero(alloc).ok()?,
        loss_hi: Ratio::zero(alloc).ok()?,
    })
}

fn process(alloc: Global, segments: Vec<Segment>) -> Process {
    let trail = Trail {
        start: List::new(alloc),
        steps: List::new(alloc),
        rise: List::new(alloc),
        fall: List::new(alloc),
    };
    Process {
        segments: List::from(segments),
        trail,
    }
}

// The end at the beginning of a part, and the numbers behind it.
fn ended(alloc: Global, part: &str) -> Option<(Ratio, Vec<Ratio>)> {
    let (end, rest) = part.trim().split_once(' ').unwrap_or((part.trim(), ""));
    Some((widened_number(alloc, end)?, widened(alloc, rest)?))
}

fn segments_of(alloc: Global, low: &str, text: &str) -> Option<Vec<Segment>> {
    let mut segments = Vec::new(alloc);
    let mut lo = widened_number(alloc, low)?;
    for part in text.split(';') {
        let (hi, coef) = ended(alloc, part)?;
        let next = hi.copy(alloc).ok()?;
        segments
            .push(segment(alloc, lo, hi, List::from(coef))?)
            .ok()?;
        lo = next;
    }
    Some(segments)
}

fn has_entries(process: &Process, x: &[Frac128], offsets: &[Frac128]) -> bool
    ensures few { IsTrue result → length process.now.segments ≤ 2 ^ 32 }
    ensures terms { IsTrue result → length x.now + length offsets.now < 2 ^ 32 }
    ensures entries { IsTrue result → All (λ s. length x.now ≡ length s.vertex.coef) process.now.segments }
{
    let segments = process.segments.as_slice();
    segments.len() <= 100
        && x.len() <= 100
        && offsets.len() <= 100
        && segments
            .iter()
            .all(|s| s.vertex.coef.as_slice().len() == x.len())
}

// Both ends and the value of each.
fn tell_each(told: &mut Told, steps: &[Step]) {
    let mut mark = "";
    for step in steps {
        told.put(mark);
        told.put_ratio(&step.lo);
        told.put(" ");
        told.put_ratio(&step.hi);
        told.put(" ");
        told.put_ratio(&step.value);
        mark = "; ";
    }
}

fn tell_rearrangement(told: &mut Told, steps: &[Step]) {
    if steps.is_empty() {
        return told.put("no steps");
    }
    match rearrange(told.alloc(), steps) {
        Ok(made) => tell_each(told, made.as_slice()),
        Err(_) => told.put("no memory"),
    }
}

fn tell_steps(told: &mut Told, steps: &[Step]) {
    tell_each(told, steps);
    told.put(" | ");
    tell_rearrangement(told, steps);
}

fn tell_predicted(told: &mut Told, process: &Process, x: &[Frac128], offsets: &[Frac128]) {
    if !has_entries(process, x, offsets) {
        return told.put("other entries");
    }
    match steps(told.alloc(), process, x, offsets) {
        Ok(made) => tell_steps(told, made.as_slice()),
        Err(_) => told.put("no memory"),
    }
}

fn tell_fit(told: &mut Told, process: &Process, x: &str, offsets: &str) {
    let x = numbers_of(told.alloc(), x);
    let offsets = numbers_of(told.alloc(), offsets);
    match (&x, &offsets) {
        (Some(x), Some(offsets)) => tell_predicted(told, process, x.as_slice(), offsets.as_slice()),
        _ => told.put("no number"),
    }
}

/// Tells the steps of a record and their rearrangement.
pub(crate) fn tell(told: &mut Told, asked: &str) {
    let mut parts = asked.split('|');
    let x = parts.next().unwrap_or("");
    let offsets = parts.next().unwrap_or("");
    let low = parts.next().unwrap_or("").trim();
    match segments_of(told.alloc(), low, parts.next().unwrap_or("")) {
        Some(segments) => {
            let process = process(told.alloc(), segments);
            tell_fit(told, &process, x, offsets);
            drop(process);
        }
        None => told.put("no fit"),
    }
}

// The steps from 0, whose text has the high end and the value of each.
fn steps_of(alloc: Global, text: &str) -> Option<Vec<Step>> {
    let mut made = Vec::new(alloc);
    let mut lo = Ratio::zero(alloc).ok()?;
    for part in text.split(';') {
        let (hi, value) = part.trim().split_once(' ')?;
        let hi = widened_number(alloc, hi)?;
        let next = hi.copy(alloc).ok()?;
        let value = widened_number(alloc, value)?;
        made.push(Step { lo, hi, value }).ok()?;
        lo = next;
    }
    Some(made)
}

/// Tells the rearrangement of steps.
pub(crate) fn tell_ordered(told: &mut Told, asked: &str) {
    match steps_of(told.alloc(), asked) {
        Some(steps) => tell_rearrangement(told, steps.as_slice()),
        None => told.put("no steps"),
    }
}
