//! The operations on numerators and denominators. Both types of fractions stand on them.

use crate::bounded::{
    compare_products, multiple, product, quotient, signed, signed_product, signed_quotient, sum,
};
use crate::divisor::common_divisor;
use std::cmp::Ordering;

/// A numerator and a denominator.
#[derive(Clone, Copy)]
pub(crate) struct Parts {
    pub num: i128,
    pub den: u128,
}

impl Parts {
    ghost use Rattle.std.specs.Prelude.{◌≡◌, ◌≢◌, ◌↔◌, ◌⊎◌, ◌<◌, ◌≤◌, ◌*◌, ◌^◌, ◌*ℤ◌, pos, unsigned_abs, IfSome, IsSome, IsNone, IsTrue};
    ghost use Rattle.rational_laws.specs.Fraction.{rational};
    ghost use Rattle.rational_laws.specs.Rational.{◌+ℚ◌, ◌*ℚ◌, quotient, neg_ℚ, inverse, whole};
    ghost use Rattle.rational_laws.specs.Order.{cmp_ℚ, sign_ℚ};
    ghost use Rattle.frac_core.specs.Overflow.{IsWithin, ReducesWithin, SumFits, negated, inverse_of};
    ghost use Rattle.frac_core.specs.Parts.{fraction, IsExact, Cancelled};

    /// `n / 1`.
    #[inline(always)]
    pub(crate) fn whole(n: i128, limit: u128) -> Parts
        requires num_fits { unsigned_abs n ≤ limit }
        requires den_fits { 1 ≤ limit }
        ensures { IsExact limit (fraction result) (whole n) }
    {
        Parts { num: n, den: 1 }
    }

    // `n / d` in lowest terms, where it is within the limit.
    fn lowest(n: i128, d: u128, limit: u128) -> Option<Parts>
        requires limited { limit < 2 ^ 127 }
        requires positive { 1 ≤ d }
        ensures exact { IfSome result (λ r. IsExact limit (fraction r) (quotient n d)) }
        ensures fits { IsSome result ↔ ReducesWithin limit n d }
    {
        let size = n.unsigned_abs();
        let g = common_divisor(size, d);
        let num = quotient(size, g);
        let den = quotient(d, g);
        if num <= limit && den <= limit {
            Some(Parts {
                num: signed(n < 0, num),
                den,
            })
        } else {
            None
        }
    }

    /// `n / d`, and `None` where `d` is 0 or the fraction in lowest terms is beyond the limit.
    pub(crate) fn signed_lowest(n: i128, d: i128, limit: u128) -> Option<Parts>
        requires { limit < 2 ^ 127 }
        ensures exact { IfSome result (λ r. IsExact limit (fraction r) (whole n *ℚ inverse (whole d))) }
        ensures refused { IsNone result ↔ ((d ≡ pos 0) ⊎ ¬ (ReducesWithin limit n (unsigned_abs d))) }
    {
        if d == 0 {
            return None;
        }
        let parts = Parts::lowest(n, d.unsigned_abs(), limit)?;
        Some(if d < 0 { parts.negation(limit) } else { parts })
    }

    /// The sum, where its four numbers are within the limit.
    #[inline(always)]
    pub(crate) fn plus(self, other: Parts, limit: u128) -> Option<Parts>
        requires limited { limit < 2 ^ 127 }
        requires left { IsWithin limit (fraction self) }
        requires right { IsWithin limit (fraction other) }
        ensures exact { IfSome result (λ r. IsExact limit (fraction r) (rational (fraction self) +ℚ rational (fraction other))) }
        ensures fits { IsSome result ↔ SumFits limit (fraction self) (fraction other) }
    {
        let g = common_divisor(self.den, other.den);
        let scale = quotient(self.den, g);
        let left = multiple(limit, self.num, quotient(other.den, g))?;
        let right = multiple(limit, other.num, scale)?;
        let joined = sum(limit, left, right)?;
        let h = common_divisor(joined.unsigned_abs(), g);
        let den = product(limit, scale, quotient(other.den, h))?;
        Some(Parts {
            num: signed_quotient(joined, h),
            den,
        })
    }

    // Both factors with the common divisors of either numerator and the other denominator taken
    // away: the product of the answers needs no reduction.
    #[inline(always)]
    fn cancelled(self, other: Parts, limit: u128) -> (Parts, Parts)
        requires limited { limit < 2 ^ 127 }
        requires left { IsWithin limit (fraction self) }
        requires right { IsWithin limit (fraction other) }
        ensures { Cancelled (fraction self) (fraction other) (fraction result.0) (fraction result.1) }
    {
        let g = common_divisor(self.num.unsigned_abs(), other.den);
        let h = common_divisor(other.num.unsigned_abs(), self.den);
        let left = Parts {
            num: signed_quotient(self.num, g),
            den: quotient(self.den, h),
        };
        let right = Parts {
            num: signed_quotient(other.num, h),
            den: quotient(other.den, g),
        };
        (left, right)
    }

    /// The product, where it is within the limit.
    #[inline(always)]
    pub(crate) fn times(self, other: Parts, limit: u128) -> Option<Parts>
        requires limited { limit < 2 ^ 127 }
        requires left { IsWithin limit (fraction self) }
        requires right { IsWithin limit (fraction other) }
        ensures exact { IfSome result (λ r. IsExact limit (fraction r) (rational (fraction self) *ℚ rational (fraction other))) }
        ensures fits { IsSome result ↔ ReducesWithin limit (self.num *ℤ other.num) (self.den * other.den) }
    {
        let (left, right) = self.cancelled(other, limit);
        let num = signed_product(limit, left.num, right.num)?;
        let den = product(limit, left.den, right.den)?;
        Some(Parts { num, den })
    }

    /// The negated fraction.
    #[inline(always)]
    pub(crate) fn negation(self, limit: u128) -> Parts
        requires limited { limit < 2 ^ 127 }
        requires within { IsWithin limit (fraction self) }
        ensures value { fraction result ≡ negated (fraction self) }
        ensures exact { IsExact limit (fraction result) (neg_ℚ (rational (fraction self))) }
    {
        Parts {
            num: -self.num,
            den: self.den,
        }
    }

    /// 1 over the fraction.
    #[inline(always)]
    pub(crate) fn inverted(self, limit: u128) -> Parts
        requires limited { limit < 2 ^ 127 }
        requires within { IsWithin limit (fraction self) }
        requires nonzero { rational (fraction self) ≢ whole (pos 0) }
        ensures value { fraction result ≡ inverse_of (fraction self) }
        ensures exact { IsExact limit (fraction result) (inverse (rational (fraction self))) }
    {
        Parts {
            num: signed(self.num < 0, self.den),
            den: self.num.unsigned_abs(),
        }
    }

    /// -1, 0 or 1.
    #[inline(always)]
    pub(crate) fn sign(self) -> i8
        requires { 1 ≤ self.den }
        ensures { result ≡ sign_ℚ (rational (fraction self)) }
    {
        self.num.signum() as i8
    }

    /// Whether it is 0.
    #[inline(always)]
    pub(crate) fn is_zero(self) -> bool
        requires { 1 ≤ self.den }
        ensures { IsTrue result ↔ (rational (fraction self) ≡ whole (pos 0)) }
    {
        self.num == 0
    }

    /// How two fractions compare.
    #[inline(always)]
    pub(crate) fn compare(self, other: Parts) -> Ordering
        requires left { 1 ≤ self.den }
        requires right { 1 ≤ other.den }
        ensures { result ≡ cmp_ℚ (rational (fraction self)) (rational (fraction other)) }
    {
        match (self.num < 0, other.num < 0) {
            (false, false) => compare_products(
                self.num.unsigned_abs(),
                other.den,
                other.num.unsigned_abs(),
                self.den,
            ),
            (true, true) => compare_products(
                other.num.unsigned_abs(),
                self.den,
                self.num.unsigned_abs(),
                other.den,
            ),
            (true, false) => Ordering::Less,
            (false, true) => Ordering::Greater,
        }
    }
}
