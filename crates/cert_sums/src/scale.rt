//! Common denominators, and fractions times them.
ghost use Rattle.std.specs.Prelude.{◌≡◌, ◌≤◌, ◌*◌, ◌*ℤ◌, pos, IfSome, IsTrue};
ghost use Rattle.rational_laws.specs.Fraction.{rational};
ghost use Rattle.rational_laws.specs.Rational.{◌*ℚ◌, whole};
ghost use Rattle.frac_core.specs.Values.{value as value128};

use frac_core::{Exact, Frac128};
use ratio::{Integer, Ratio};

// A whole number of 128 bits with a sign, where it has one.
fn signed(number: &Integer) -> Option<i128>
    ensures { IfSome result (λ n. n ≡ number.now) }
{
    let size = i128::try_from(number.size().narrow()?).ok()?;
    if number.is_negative() {
        return size.checked_neg();
    }
    Some(size)
}

/// A number of an answer in 128 bits, where it has them.
pub(crate) fn narrow(v: &Ratio) -> Option<Frac128>
    ensures { IfSome result (λ r. rational (value128 r) ≡ rational v.now) }
{
    let num = signed(v.numerator())?;
    let den = i128::try_from(v.denominator().narrow()?).ok()?;
    Frac128::from_parts(num, den)
}

/// Whether a number of an answer is a fraction, whose parts in lowest terms are the same.
pub(crate) fn is_number(v: &Ratio, found: Frac128) -> bool
    ensures { IsTrue result → rational v.now ≡ rational (value128 found) }
{
    let Some(num) = signed(v.numerator()) else {
        return false;
    };
    let Some(den) = v.denominator().narrow() else {
        return false;
    };
    if num != found.numerator() {
        return false;
    }
    den == found.denominator().unsigned_abs()
}

/// Whether two numbers of answers are the same.
pub(crate) fn is_same(left: &Ratio, right: &Ratio) -> bool
    ensures { IsTrue result → rational left.now ≡ rational right.now }
{
    if !left.numerator().compare(right.numerator()).is_eq() {
        return false;
    }
    left.denominator().compare(right.denominator()).is_eq()
}

/// A multiple of two numbers. Nothing is promised of it: who uses it divides and multiplies back.
pub(crate) fn multiple(scale: u128, den: u128) -> Option<u128> {
    if scale.checked_rem(den)? == 0 {
        return Some(scale);
    }
    let reduced = Frac128::from_parts(i128::try_from(scale).ok()?, i128::try_from(den).ok()?)?;
    reduced.numerator().unsigned_abs().checked_mul(den)
}

/// A multiple of a number and of the denominators of all fractions of a list.
pub(crate) fn common_multiple(scale: u128, numbers: &[Frac128]) -> Option<u128> {
    let mut found = scale;
    for i in 0..numbers.len() {
        found = multiple(found, numbers[i].denominator().unsigned_abs())?;
    }
    Some(found)
}

// The same, of numbers of an answer.
fn answers_multiple(scale: u128, numbers: &[Ratio]) -> Option<u128> {
    let mut found = scale;
    for i in 0..numbers.len() {
        found = multiple(found, numbers[i].denominator().narrow()?)?;
    }
    Some(found)
}

/// A number times another, where it fits.
pub(crate) fn product(n: i128, times: u128) -> Option<i128>
    ensures { IfSome result (λ m. m ≡ n *ℤ pos times) }
{
    match i128::try_from(times) {
        Ok(factor) => n.checked_mul(factor),
        Err(_) => None,
    }
}

// How often a denominator goes into a scale, where it divides that.
fn share_of(scale: u128, den: u128) -> Option<u128>
    ensures { IfSome result (λ times. scale ≡ times * den) }
{
    let times = scale.checked_div(den)?;
    let back = times.checked_mul(den)?;
    if back != scale {
        return None;
    }
    Some(times)
}

/// A fraction times a number, where the denominator divides that.
pub(crate) fn scaled(v: Frac128, scale: u128) -> Option<i128>
    ensures { IfSome result (λ m. whole m ≡ whole (pos scale) *ℚ rational (value128 v)) }
{
    let times = share_of(scale, v.denominator().unsigned_abs())?;
    let made = product(v.numerator(), times)?;
    Some(made)
}

/// The same of a number of an answer.
pub(crate) fn answer_scaled(v: &Ratio, scale: u128) -> Option<i128>
    ensures { IfSome result (λ m. whole m ≡ whole (pos scale) *ℚ rational v.now) }
{
    let den = v.denominator().narrow()?;
    let num = signed(v.numerator())?;
    let times = share_of(scale, den)?;
    let made = product(num, times)?;
    Some(made)
}

/// A common multiple of a number and of the denominators of numbers of an answer, where it isn't 0.
pub(crate) fn common_scale(first: u128, rest: &[Ratio]) -> Option<u128>
    ensures { IfSome result (λ scale. 1 ≤ scale) }
{
    let scale = answers_multiple(first, rest)?;
    if scale < 1 {
        return None;
    }
    Some(scale)
}
