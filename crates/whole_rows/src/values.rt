//! Numerators over a denominator as fractions, and these times and over factors.
ghost use Rattle.std.specs.Prelude.{◌≡◌, ◌≢◌, ℕ, ◌<◌, length, IfOk, IsTrue, pos};
ghost use Rattle.rational_laws.specs.Fraction.{rational};
ghost use Rattle.rational_laws.specs.Rational.{◌*ℚ◌, inverse, whole};
ghost use Rattle.loss_model.specs.Problem.{value_at};
ghost use Rattle.whole_inverse.specs.Shares.{share, share_at};
ghost use Rattle.whole_rows.specs.Wholes.{factor_value, factor_at};

use crate::factor::Factor;
use frac_core::{Exact, List};
use std::alloc::Global;
use whole_inverse::{Obstacle, room_for};

/// A numerator over a denominator.
pub fn value_over<F: Exact>(n: i128, d: i128) -> Result<F, Obstacle>
    ensures { IfOk result (λ r. rational (F.value r) ≡ share n d) }
{
    match F::from_parts(n, d) {
        Some(value) => Ok(value),
        None => Err(Obstacle::TooWide),
    }
}

/// The numerators of a list over a denominator.
pub fn values_over<F: Exact>(
    alloc: Global,
    numerators: &[i128],
    d: i128,
) -> Result<List<F>, Obstacle>
    ensures size { IfOk result (λ made. length made ≡ length numerators.now) }
    ensures each { IfOk result (λ made. (i : ℕ) → i < length numerators.now → value_at F.value made i ≡ share_at d numerators.now i) }
{
    let mut made = room_for(alloc, numerators.len())?;
    for i in 0..numerators.len() {
        let value = value_over(numerators[i], d)?;
        made.add(value)?;
    }
    Ok(made)
}

/// Whether a fraction is 1.
#[tactic(auto, using(crate::proofs::Ones::one_value))]
fn is_one<F: Exact>(value: F) -> bool
    ensures { IsTrue result → rational (F.value value) ≡ whole (pos 1) }
{
    value.numerator() == 1 && value.denominator() == 1
}

/// A value over a factor. Most factors are 1, and leave nothing to divide.
#[tactic(auto, using(crate::proofs::Ones::over_one))]
pub fn divided<F: Exact>(value: F, factor: F) -> Result<F, Obstacle>
    requires { rational (F.value factor) ≢ whole (pos 0) }
    ensures { IfOk result (λ r. rational (F.value r) ≡ rational (F.value value) *ℚ inverse (rational (F.value factor))) }
{
    if is_one(factor) {
        return Ok(value);
    }
    match value.try_div(factor) {
        Ok(quotient) => Ok(quotient),
        Err(_) => Err(Obstacle::TooWide),
    }
}

/// A numerator over a denominator, divided by a factor.
fn value_under<F: Exact>(n: i128, d: i128, factor: F) -> Result<F, Obstacle>
    requires { rational (F.value factor) ≢ whole (pos 0) }
    ensures { IfOk result (λ r. rational (F.value r) ≡ share n d *ℚ inverse (rational (F.value factor))) }
{
    let value: F = value_over(n, d)?;
    let quotient = divided(value, factor)?;
    Ok(quotient)
}

/// The numerators of a list over a denominator, each divided by a factor.
pub fn values_under<F: Exact>(
    alloc: Global,
    numerators: &[i128],
    d: i128,
    factor: F,
) -> Result<List<F>, Obstacle>
    requires { rational (F.value factor) ≢ whole (pos 0) }
    ensures size { IfOk result (λ made. length made ≡ length numerators.now) }
    ensures each { IfOk result (λ made. (i : ℕ) → i < length numerators.now → value_at F.value made i ≡ share_at d numerators.now i *ℚ inverse (rational (F.value factor))) }
{
    let mut made = room_for(alloc, numerators.len())?;
    for i in 0..numerators.len() {
        let value = value_under(numerators[i], d, factor)?;
        made.add(value)?;
    }
    Ok(made)
}

/// The factor of a column, which is 1 beyond the last.
fn factor_of(factors: &[Factor<i128>], k: usize) -> Factor<i128>
    ensures { factor_value result ≡ factor_at factors.now k }
{
    if k < factors.len() {
        factors[k]
    } else {
        Factor { over: 1, under: 1 }
    }
}

/// Whether a factor is 1.
#[tactic(auto, using(crate::proofs::Ones::one_factor))]
fn is_unit(factor: Factor<i128>) -> bool
    ensures { IsTrue result → factor_value factor ≡ whole (pos 1) }
{
    factor.over == 1 && factor.under == 1
}

/// A value times a factor, which is mostly 1.
#[tactic(auto, using(crate::proofs::Ones::times_one))]
fn times<F: Exact>(value: F, factor: Factor<i128>) -> Result<F, Obstacle>
    ensures { IfOk result (λ r. rational (F.value r) ≡ rational (F.value value) *ℚ factor_value factor) }
{
    if is_unit(factor) {
        return Ok(value);
    }
    let other: F = value_over(factor.over, factor.under)?;
    match value.try_mul(other) {
        Ok(product) => Ok(product),
        Err(_) => Err(Obstacle::TooWide),
    }
}

/// The values of the columns, each times the factor of its column.
pub fn scaled<F: Exact>(
    alloc: Global,
    values: &[F],
    factors: &[Factor<i128>],
) -> Result<List<F>, Obstacle>
    ensures size { IfOk result (λ made. length made ≡ length values.now) }
    ensures each { IfOk result (λ made. (k : ℕ) → k < length values.now → value_at F.value made k ≡ value_at F.value values.now k *ℚ factor_at factors.now k) }
{
    let mut made = room_for(alloc, values.len())?;
    for k in 0..values.len() {
        let value = times(values[k], factor_of(factors, k))?;
        made.add(value)?;
    }
    Ok(made)
}
