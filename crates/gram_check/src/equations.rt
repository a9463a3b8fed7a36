//! The normal equations of a column.
ghost use Rattle.std.specs.Prelude.{◌≡◌, ◌≢◌, ◌<◌, ◌≤◌, ◌+ℤ◌, ◌*ℤ◌, neg_ℤ, All, length, IfOk, IsTrue, pos, get_or};
ghost use Rattle.loss_model.specs.Sample.{Sample};
ghost use Rattle.rank_model.specs.Restricted.{IsProjection};
ghost use Rattle.wide_int.specs.Numbers.{total};
ghost use Rattle.whole_inverse.specs.Shares.{share_at};
ghost use Rattle.gram_check.specs.Equations.{IsSumOf, HasGram};

use crate::factors::Factors;
use frac_core::{List, OutOfMemory};
use ratio::Integer;
use std::alloc::Global;

/// A sum and one product more.
fn plus_product(
    alloc: Global,
    sum: &Integer,
    entry: &Integer,
    numerator: &Integer,
) -> Result<Integer, OutOfMemory>
    ensures { IfOk result (λ n. n ≡ sum.now +ℤ entry.now *ℤ numerator.now) }
{
    let product = entry.mul(alloc, numerator)?;
    let next = sum.add(alloc, &product)?;
    Ok(next)
}

/// The sum of the products of a row and numerators.
fn sum_of_products(
    alloc: Global,
    row: &[Integer],
    numerators: &[Integer],
) -> Result<Integer, OutOfMemory>
    requires { length row.now ≡ length numerators.now }
    ensures { IfOk result (λ n. n ≡ total row.now numerators.now) }
{
    let mut sum = Integer::zero(alloc);
    for i in 0..row.len() {
        sum = plus_product(alloc, &sum, &row[i], &numerators[i])?;
    }
    Ok(sum)
}

/// A number times the denominator of factors less the sum of the products of a row and their numerators.
pub(crate) fn rest(
    alloc: Global,
    own: &Integer,
    row: &[Integer],
    factors: &Factors,
) -> Result<Integer, OutOfMemory>
    requires { length row.now ≡ length factors.now.numerators }
    ensures { IfOk result (λ n. n ≡ (own.now *ℤ pos factors.now.denominator) +ℤ neg_ℤ (total row.now factors.now.numerators)) }
{
    let times = own.times(alloc, &factors.denominator)?;
    let sum = sum_of_products(alloc, row, factors.numerators.as_slice())?;
    let number = times.add(alloc, &sum.neg())?;
    Ok(number)
}

/// Whether a number is the sum of the products of a row and the factors.
fn is_sum(
    alloc: Global,
    own: &Integer,
    row: &[Integer],
    factors: &Factors,
) -> Result<bool, OutOfMemory>
    requires same { length row.now ≡ length factors.now.numerators }
    requires some { 1 ≤ factors.now.denominator }
    ensures { IfOk result (λ b. IsTrue b → IsSumOf own.now row.now factors.now.numerators (pos factors.now.denominator)) }
{
    let number = rest(alloc, own, row, factors)?;
    Ok(number.size().is_zero())
}

/// Whether the equation of a Gram row holds, save that of the column itself.
fn holds_at(
    alloc: Global,
    row: &[Integer],
    k: usize,
    column: usize,
    factors: &Factors,
) -> Result<bool, OutOfMemory>
    requires same { length row.now ≡ length factors.now.numerators }
    requires column { column < length row.now }
    requires some { 1 ≤ factors.now.denominator }
    ensures { IfOk result (λ b. IsTrue b → k ≢ column → IsSumOf (get_or row.now column (pos 0)) row.now factors.now.numerators (pos factors.now.denominator)) }
{
    if k == column {
        return Ok(true);
    }
    let holds = is_sum(alloc, &row[column], row, factors)?;
    Ok(holds)
}

/// Whether the factors project a column on the others: that of the column is 0, and they meet the equation of each other row of the
/// Gram matrix.
pub fn are_factors(
    alloc: Global,
    gram: &[List<Integer>],
    column: usize,
    factors: &Factors,
) -> Result<bool, OutOfMemory>
    requires size { length gram.now ≡ length factors.now.numerators }
    requires square { All (λ row. length row ≡ length factors.now.numerators) gram.now }
    requires column { column < length factors.now.numerators }
    requires some { 1 ≤ factors.now.denominator }
    ensures { IfOk result (λ b. IsTrue b → (p : Sample) → HasGram p gram.now → IsProjection p column (share_at (pos factors.now.denominator) factors.now.numerators)) }
{
    if !factors.numerators.as_slice()[column].size().is_zero() {
        return Ok(false);
    }
    for k in 0..gram.len() {
        if !holds_at(alloc, gram[k].as_slice(), k, column, factors)? {
            return Ok(false);
        }
    }
    Ok(true)
}
