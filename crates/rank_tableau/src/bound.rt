//! The bound of the square of a rank statistic.
ghost use Rattle.std.specs.Prelude.{◌≡◌, ◌*◌, ◌≤◌, ◌+ℤ◌, neg_ℤ, ◌≤ℤ◌, IfOk, pos};
ghost use Rattle.rank_model.specs.Restricted.{rank_bound};
ghost use Rattle.whole_inverse.specs.Shares.{share};
ghost use Rattle.whole_rows.specs.Wholes.{factor_value};

use crate::reach::Square;
use frac_core::OutOfMemory;
use natural::Natural;
use ratio::Integer;
use std::alloc::Global;
use whole_inverse::Obstacle;
use whole_rows::Factor;

/// A number that isn't negative.
fn natural(n: i128) -> Result<u128, Obstacle>
    ensures { IfOk result (λ m. pos m ≡ n) }
{
    if n < 0 {
        return Err(Obstacle::TooWide);
    }
    Ok(n.unsigned_abs())
}

/// What a fraction's numerator lacks to its denominator, where it lacks something or nothing.
fn lack(part: Factor<i128>) -> Result<u128, Obstacle>
    ensures { IfOk result (λ m. pos m ≡ part.under +ℤ neg_ℤ part.over) }
{
    match part.under.checked_sub(part.over) {
        Some(difference) => {
            let rest = natural(difference)?;
            Ok(rest)
        }
        None => Err(Obstacle::TooWide),
    }
}

/// The product with a number of 128 bits.
fn times(alloc: Global, n: &Natural, m: u128) -> Result<Natural, OutOfMemory>
    ensures { IfOk result (λ r. r ≡ n.now * m) }
{
    let factor = Natural::new(alloc, m)?;
    let product = n.mul(alloc, &factor)?;
    Ok(product)
}

/// The product of four numbers.
fn product(
    alloc: Global,
    pair: (u128, u128),
    third: u128,
    last: &Natural,
) -> Result<Natural, OutOfMemory>
    ensures { IfOk result (λ r. r ≡ ((pair.0 * pair.1) * third) * last.now) }
{
    let first = Natural::new(alloc, pair.0)?;
    let two = times(alloc, &first, pair.1)?;
    let three = times(alloc, &two, third)?;
    let four = three.mul(alloc, last)?;
    Ok(four)
}

/// The critical value times tau times 1 - tau times the squared length `left / parts`, where none of these is negative.
pub fn square_bound(
    alloc: Global,
    crit: Factor<i128>,
    tau: Factor<i128>,
    left: &Integer,
    parts: &Natural,
) -> Result<Square, Obstacle>
    requires crit { pos 1 ≤ℤ crit.under }
    requires tau { pos 1 ≤ℤ tau.under }
    requires parts { 1 ≤ parts.now }
    ensures under { IfOk result (λ s. 1 ≤ s.under) }
    ensures bound { IfOk result (λ s. share (pos s.over) (pos s.under) ≡ rank_bound (factor_value tau) (factor_value crit) (share left.now (pos parts.now))) }
{
    if left.is_negative() {
        return Err(Obstacle::TooWide);
    }
    let most = natural(crit.over)?;
    let least = natural(crit.under)?;
    let first = natural(tau.over)?;
    let all = natural(tau.under)?;
    let rest = lack(tau)?;
    let over = product(alloc, (most, first), rest, left.size())?;
    let under = product(alloc, (least, all), all, parts)?;
    Ok(Square { over, under })
}
