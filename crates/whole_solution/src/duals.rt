//! The dual values of the rows of a basis, which balance what the others weigh.
ghost use Rattle.std.specs.Prelude.{◌≡◌, ℕ, ℤ, ◌<◌, ◌^◌, length, IfOk, All};
ghost use Rattle.rational_laws.specs.Rational.{neg_ℚ};
ghost use Rattle.basis_model.specs.Basis.{balancing};
ghost use Rattle.rational_laws.specs.WholeLists.{whole_at};
ghost use Rattle.whole_inverse.specs.Shares.{share, share_at, shares};

use crate::primal::product_of;
use frac_core::List;
use std::alloc::Global;
use whole_inverse::{Obstacle, WholeInverse, room_for};

/// The negated numerator.
pub fn negation(n: i128) -> Result<i128, Obstacle>
    ensures { IfOk result (λ m. (d : ℤ) → share m d ≡ neg_ℚ (share n d)) }
{
    match n.checked_neg() {
        Some(m) => Ok(m),
        None => Err(Obstacle::TooWide),
    }
}

/// The numerator of the value at a position that balances these totals.
fn balancing_number(
    inverse: &WholeInverse,
    totals: &[i128],
    position: u32,
) -> Result<i128, Obstacle>
    requires size { length totals.now ≡ length inverse.now.columns }
    requires square { All (λ c. length c ≡ length inverse.now.columns) inverse.now.columns }
    requires within { position < length inverse.now.columns }
    ensures { IfOk result (λ m. (d : ℤ) → share m d ≡ balancing (length totals.now) (shares inverse.now.columns d) (whole_at totals.now) position) }
{
    let weight = product_of(inverse.numerators(position), totals)?;
    negation(weight)
}

/// The numerators of the values at all positions that balance these totals.
pub fn balancing_numbers(
    alloc: Global,
    inverse: &WholeInverse,
    totals: &[i128],
) -> Result<List<i128>, Obstacle>
    requires size { length totals.now ≡ length inverse.now.columns }
    requires short { length totals.now < 2 ^ 32 }
    requires square { All (λ c. length c ≡ length inverse.now.columns) inverse.now.columns }
    ensures size { IfOk result (λ made. length made ≡ length totals.now) }
    ensures each { IfOk result (λ made. (d : ℤ) (j : ℕ) → j < length totals.now → share_at d made j ≡ balancing (length totals.now) (shares inverse.now.columns d) (whole_at totals.now) j) }
{
    let mut made = room_for(alloc, totals.len())?;
    for position in 0..totals.len() {
        let number = balancing_number(inverse, totals, position as u32)?;
        if made.push(number).is_err() {
            return Err(Obstacle::OutOfMemory);
        }
    }
    Ok(made)
}
