//! The sign of a perturbed residual.
ghost use Rattle.std.specs.Prelude.{◌≡◌, ℕ, ◌<◌, length, slice_index, pos};
ghost use Rattle.rational_laws.specs.Fraction.{rational};
ghost use Rattle.rational_laws.specs.Rational.{whole};
ghost use Rattle.rational_laws.specs.Order.{cmp_ℚ};
ghost use Rattle.basis_model.specs.Perturbed.{IsOutside, nonbasic, perturbed_side, side_of};

use crate::scan::next_position;
use frac_core::Exact;
use loss_model::{Basis, Side};
use std::cmp::Ordering;

/// The side of a value that isn't 0.
fn side_of_value<F: Exact>(value: F) -> Side
    ensures { result ≡ side_of (cmp_ℚ (rational (F.value value)) (whole (pos 0))) }
{
    match value.compare(F::zero()) {
        Ordering::Greater => Side::Up,
        _ => Side::Down,
    }
}

/// The sign of the perturbed residual of a row outside the basis, as a side, `Up` or `Down`. The
/// coordinates go by the positions of the basis. It takes no memory and never fails.
pub fn lex_sign<F: Exact>(residual: F, coords: &[F], basis: &Basis, row: u32) -> Side
    requires same { length coords.now ≡ length basis.now.rows }
    requires outside { IsOutside (length basis.now.rows) (slice_index basis.now.rows) row }
    ensures { let n = length basis.now.rows in let at = slice_index basis.now.rows in
        (rows : ℕ) → row < rows → result ≡ perturbed_side rows n at (nonbasic F.value row residual coords.now) }
{
    if !residual.is_zero() {
        return side_of_value(residual);
    }
    match next_position(basis.rows.as_slice(), (coords, coords), 0, row) {
        Some(k) => side_of_value(coords[k].neg()),
        None => Side::Up,
    }
}
