//! What is told of trails, of the vertices that they lead to, and of why there is none.

use crate::told::Told;
use frac_core::Exact;
use loss_model::{Exchange, Side, Stop, Trail, Vertex};

/// Rows, each behind a blank.
pub(crate) fn tell_rows(told: &mut Told, rows: &[u32]) {
    for row in rows {
        told.put_named(" ", *row);
    }
}

// The row at a position, or `-` where there is none.
fn tell_place(told: &mut Told, row: Option<u32>) {
    match row {
        Some(row) => told.put_named(" ", row),
        None => told.put(" -"),
    }
}

fn tell_start(told: &mut Told, rows: &[Option<u32>]) {
    told.put("start");
    for row in rows {
        tell_place(told, *row);
    }
}

// Steps by the parameter, the position and the row.
fn tell_steps(told: &mut Told, name: &str, steps: &[Exchange]) {
    told.put(name);
    for step in steps {
        told.put(" ");
        told.put_ratio(&step.theta);
        told.put_named("@", step.position);
        told.put_named(":", step.row);
    }
}

pub(crate) fn tell_trail(told: &mut Told, trail: &Trail) {
    tell_start(told, trail.start.as_slice());
    tell_steps(told, " steps", trail.steps.as_slice());
    tell_steps(told, " rise", trail.rise.as_slice());
    tell_steps(told, " fall", trail.fall.as_slice());
}

pub(crate) fn tell_sides(told: &mut Told, sides: &[Side]) {
    for side in sides {
        told.put(match side {
            Side::Up => "+",
            Side::Down => "-",
            Side::Basic => "*",
        });
    }
}

/// The basic rows, the sides of all rows and the coefficients.
pub(crate) fn tell_vertex(told: &mut Told, vertex: &Vertex) {
    told.put("by");
    tell_rows(told, vertex.basis.rows.as_slice());
    told.put(" ");
    tell_sides(told, vertex.sides.as_slice());
    told.put(" at ");
    told.put_ratios(vertex.coef.as_slice());
}

pub(crate) fn tell_stop<F: Exact>(told: &mut Told, stop: &Stop<F>) {
    match stop {
        Stop::PivotLimit { limit, trail } => {
            told.put_named("PivotLimit ", *limit);
            told.put("; ");
            tell_trail(told, trail);
        }
        Stop::Overflow { trail, spill } => {
            told.put_spill(*spill);
            told.put("; ");
            tell_trail(told, trail);
        }
        Stop::Dependent { combination } => {
            told.put("Dependent ");
            told.put_ratios(combination.as_slice());
        }
        Stop::OutOfMemory => told.put("no memory"),
    }
}
