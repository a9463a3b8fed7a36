//! Operations on fractions, with no answer where one overflows.
ghost use Rattle.std.specs.Prelude.{◌≡◌, IfSome};
ghost use Rattle.rational_laws.specs.Fraction.{rational};
ghost use Rattle.rational_laws.specs.Order.{cmp_ℚ};
ghost use Rattle.rational_laws.specs.Rational.{◌-ℚ◌, ◌*ℚ◌};
ghost use Rattle.frac_core.specs.Values.{value as value128};

use frac_core::{Exact, Frac128};
use std::cmp::Ordering;

/// The difference.
pub(crate) fn minus(left: Frac128, right: Frac128) -> Option<Frac128>
    ensures { IfSome result (λ r. rational (value128 r) ≡ rational (value128 left) -ℚ rational (value128 right)) }
{
    match left.try_sub(right) {
        Ok(difference) => Some(difference),
        Err(_) => None,
    }
}

/// The product.
pub(crate) fn times(left: Frac128, right: Frac128) -> Option<Frac128>
    ensures { IfSome result (λ r. rational (value128 r) ≡ rational (value128 left) *ℚ rational (value128 right)) }
{
    match left.try_mul(right) {
        Ok(product) => Some(product),
        Err(_) => None,
    }
}

/// How a fraction compares with the product of two others, of which the first has to be above 0: that divides it, so that
/// neither side of the comparison is a product.
pub(crate) fn against_product(number: Frac128, factor: Frac128, other: Frac128) -> Option<Ordering>
    ensures { IfSome result (λ order. order ≡ cmp_ℚ (rational (value128 number)) (rational (value128 factor) *ℚ rational (value128 other))) }
{
    if factor.sign() <= 0 {
        return None;
    }
    match number.try_div(factor) {
        Ok(quotient) => Some(quotient.compare(other)),
        Err(_) => None,
    }
}
