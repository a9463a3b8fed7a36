//! Tables, quantiles and critical values, drawn in a way that repeats.

ghost use Rattle.std.specs.Prelude.{◌<◌};

use crate::tables::Data;
use std::alloc::{AllocError, Global};

/// A numerator and a denominator.
pub type Parts = [i128; 2];

/// What the entries of drawn tables are drawn from.
static ENTRIES: [i128; 8] = [-2, -1, 0, 0, 1, 1, 2, 3];

/// What their responses are drawn from.
static RESPONSES: [i128; 8] = [-3, -2, -1, 0, 0, 1, 2, 3];

/// What their weights are drawn from.
static WEIGHTS: [i128; 4] = [1, 1, 2, 3];

/// What quantiles are drawn from.
pub static QUANTILES: [Parts; 4] = [[1, 2], [1, 3], [3, 4], [2, 5]];

/// What critical values are drawn from.
pub static CRITICAL: [Parts; 6] = [[0, 1], [1, 4], [1, 2], [1, 1], [3, 2], [4, 1]];

/// The next number of a linear congruential generator, below a limit.
pub fn draw(state: &mut u32, limit: u32) -> u32
    requires { 0 < limit }
    ensures { result < limit }
{
    *state = state.wrapping_mul(1_664_525).wrapping_add(1_013_904_223);
    *state / 65_536 % limit
}

/// A row: the one before with another weight, or with another response, or a new one.
fn draw_row(state: &mut u32, columns: usize, before: Option<Data>) -> Data {
    let kind = draw(state, 4);
    let drawn = [
        ENTRIES[draw(state, 8) as usize],
        ENTRIES[draw(state, 8) as usize],
    ];
    let y = RESPONSES[draw(state, 8) as usize];
    let weight = WEIGHTS[draw(state, 4) as usize];
    let x = [
        1,
        if columns > 1 { drawn[0] } else { 0 },
        if columns > 2 { drawn[1] } else { 0 },
    ];
    let Some(before) = before else {
        return (x, y, weight);
    };
    let old = before.0;
    match kind {
        0 => (old, before.1, weight),
        1 => (old, y, weight),
        _ => (x, y, weight),
    }
}

/// A table of one to three rows more than columns.
pub fn draw_table(alloc: Global, state: &mut u32, columns: usize) -> Result<Vec<Data>, AllocError> {
    let mut table: Vec<Data> = Vec::new(alloc);
    for _ in 0..columns {
        let row = draw_row(state, columns, table.last().copied());
        table.push(row)?;
    }
    for _ in 0..1 + draw(state, 3) {
        let row = draw_row(state, columns, table.last().copied());
        table.push(row)?;
    }
    Ok(table)
}
