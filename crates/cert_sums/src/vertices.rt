//! What a vertex says of a row: its side, and its place in the basis.
ghost use Rattle.std.specs.Prelude.{◌≡◌, ◌==◌, pos, position, IfSome};
ghost use Rattle.std.specs.List.{position_or_len};
ghost use Rattle.rational_laws.specs.Fraction.{rational};
ghost use Rattle.rational_laws.specs.Rational.{◌*ℚ◌, whole};
ghost use Rattle.frac_core.specs.Values.{value as value128};
ghost use Rattle.loss_model.specs.Problem.{number_at};
ghost use Rattle.loss_model.specs.Vertex.{basic_value};
ghost use Rattle.cert_sums.specs.Duals.{side_in};

use crate::scale::{answer_scaled, narrow};
use frac_core::{Exact, Frac128, List};
use loss_model::{Side, Vertex};
use ratio::Ratio;

/// The item at a place, and 0 beyond the end, where it has 128 bits.
pub(crate) fn item_at(list: &[Ratio], place: usize) -> Option<Frac128>
    ensures { IfSome result (λ x. rational (value128 x) ≡ number_at list.now place) }
{
    match list.get(place) {
        Some(x) => narrow(x),
        None => Some(Frac128::zero()),
    }
}

// The item at a place, and 0 beyond the end, times a scale.
fn item_scaled(list: &[Ratio], place: usize, scale: u128) -> Option<i128>
    ensures { IfSome result (λ m. whole m ≡ whole (pos scale) *ℚ number_at list.now place) }
{
    match list.get(place) {
        Some(x) => answer_scaled(x, scale),
        None => None,
    }
}

/// The side of a row.
#[inline]
pub fn side(vertex: &Vertex, row: usize) -> Side
    ensures { result ≡ side_in vertex.now row }
{
    match vertex.sides.as_slice().get(row) {
        Some(found) => *found,
        None => Side::Basic,
    }
}

// The position of a row in the basis, if it is there.
fn basis_position(rows: &[u32], row: usize) -> Option<usize>
    ensures { result ≡ position (λ r. r == row) rows.now }
{
    rows.iter().position(|r| *r as usize == row)
}

/// The place of a row in the basis, or the length of that.
pub fn basis_place(rows: &[u32], row: usize) -> usize
    ensures { result ≡ position_or_len (λ r. r == row) rows.now }
{
    match basis_position(rows, row) {
        Some(place) => place,
        None => rows.len(),
    }
}

/// What a basic row has in a list by ascending row, times a scale.
pub(crate) fn basic_scaled(
    vertex: &Vertex,
    basic: &List<Ratio>,
    row: usize,
    scale: u128,
) -> Option<i128>
    ensures { IfSome result (λ m. whole m ≡ whole (pos scale) *ℚ basic_value vertex.now basic.now row) }
{
    let place = basis_place(vertex.basis.rows.as_slice(), row);
    item_scaled(basic.as_slice(), place, scale)
}
