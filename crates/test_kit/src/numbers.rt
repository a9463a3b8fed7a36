//! Numbers as pairs, and their order.

ghost use Rattle.std.specs.Prelude.{IsTrue};
ghost use Rattle.rational_laws.specs.Fraction.{rational};
ghost use Rattle.rational_laws.specs.Rational.{◌≤ℚ◌};
ghost use Rattle.loss_model.specs.Strict.{◌<ℚ◌};

use frac_core::Exact;
use ratio::Ratio;

/// The numerator and the denominator.
pub fn ratio<F: Exact>(value: F) -> (i128, i128) {
    (value.numerator(), value.denominator())
}

/// The same of a number of an answer that has 127 bits; a wider one has none.
pub fn short_parts(value: &Ratio) -> Option<(i128, i128)> {
    let size = i128::try_from(value.numerator().size().narrow()?).ok()?;
    let below = i128::try_from(value.denominator().narrow()?).ok()?;
    let is_negative = value.numerator().is_negative();
    Some((
        if is_negative {
            size.wrapping_neg()
        } else {
            size
        },
        below,
    ))
}

/// Whether a number is less than another.
pub fn is_less<F: Exact>(x: F, y: F) -> bool
    ensures { IsTrue result → rational (F.value x) <ℚ rational (F.value y) }
{
    x.compare(y).is_lt()
}

/// Whether a number is at most another.
pub fn is_ordered<F: Exact>(x: F, y: F) -> bool
    ensures { IsTrue result → rational (F.value x) ≤ℚ rational (F.value y) }
{
    if y.compare(x).is_lt() { false } else { true }
}
