//! Fractions whose parts have at most 63 bits and a sign.

ghost use Rattle.std.specs.Prelude.{◌≡◌, ◌-◌, ◌^◌, pos, refl};
ghost use Rattle.frac_core.specs.Overflow.{IsWithin};

use crate::parts::Parts;
use crate::{Exact, Op, OpKind};
use std::cmp::Ordering;

/// A fraction in lowest terms, whose numerator and denominator are at most `2^63 - 1` in size.
#[derive(Clone, Copy, Debug, PartialEq, Eq)]
pub struct Frac64 {
    num: i64,
    den: u64,
    ghost within: { IsWithin (2 ^ 63 - 1) (record { num = num; den = den }) },
}

// The greatest size of a part.
const LIMIT: u128 = i64::MAX as u128;

impl Frac64 {
    ghost use Rattle.frac_core.specs.Parts.{fraction};

    /// The parts, as the operations take them.
    pub(crate) fn parts(self) -> Parts
        ensures { fraction result ≡ record { num = self.num; den = self.den } }
    {
        Parts {
            num: self.num as i128,
            den: self.den as u128,
        }
    }

    /// The fraction of parts in lowest terms.
    pub(crate) fn from_lowest(parts: Parts) -> Frac64
        requires { IsWithin (2 ^ 63 - 1) (fraction parts) }
        ensures { fraction parts ≡ record { num = result.num; den = result.den } }
    {
        Frac64 {
            num: parts.num as i64,
            den: parts.den as u64,
        }
    }
}

impl Exact for Frac64 {
    ghost use Rattle.std.proofs.Common.{lit≤};
    ghost use Rattle.frac_core.specs.Lowest.{same_fraction, IsWithin-along};

    ghost range = { 2 ^ 63 - 1 };

    ghost RANGE = { pos (2 ^ 63 - 1) };

    ghost value = { λ x. record { num = x.num; den = x.den } };

    ghost within = { λ x. x.within };

    ghost same = { λ x y e.
        let parts = same_fraction (2 ^ 63 - 1) _ _ x.within y.within e in
        λ i. record { num = (parts i).num; den = (parts i).den; within = IsWithin-along (2 ^ 63 - 1) parts x.within y.within i } };

    ghost range_is = { refl };

    ghost range_is_wide = { lit≤ tt };

    const RANGE: i128 = i64::MAX as i128;

    fn zero() -> Self {
        Frac64::from_lowest(Parts::whole(0, LIMIT))
    }

    fn one() -> Self {
        Frac64::from_lowest(Parts::whole(1, LIMIT))
    }

    fn from_parts(n: i128, d: i128) -> Option<Self> {
        Some(Frac64::from_lowest(Parts::signed_lowest(n, d, LIMIT)?))
    }

    fn numerator(self) -> i128 {
        self.num as i128
    }

    fn denominator(self) -> i128 {
        self.den as i128
    }

    fn try_add(self, other: Self) -> Result<Self, Op<Self>> {
        match self.parts().plus(other.parts(), LIMIT) {
            Some(sum) => Ok(Frac64::from_lowest(sum)),
            None => Err(Op {
                kind: OpKind::Add,
                left: self,
                right: other,
            }),
        }
    }

    fn try_sub(self, other: Self) -> Result<Self, Op<Self>> {
        match self.parts().plus(other.parts().negation(LIMIT), LIMIT) {
            Some(difference) => Ok(Frac64::from_lowest(difference)),
            None => Err(Op {
                kind: OpKind::Sub,
                left: self,
                right: other,
            }),
        }
    }

    fn try_mul(self, other: Self) -> Result<Self, Op<Self>> {
        match self.parts().times(other.parts(), LIMIT) {
            Some(product) => Ok(Frac64::from_lowest(product)),
            None => Err(Op {
                kind: OpKind::Mul,
                left: self,
                right: other,
            }),
        }
    }

    fn try_div(self, other: Self) -> Result<Self, Op<Self>> {
        match self.parts().times(other.parts().inverted(LIMIT), LIMIT) {
            Some(ratio) => Ok(Frac64::from_lowest(ratio)),
            None => Err(Op {
                kind: OpKind::Div,
                left: self,
                right: other,
            }),
        }
    }

    fn neg(self) -> Self {
        Frac64::from_lowest(self.parts().negation(LIMIT))
    }

    fn sign(self) -> i8 {
        self.parts().sign()
    }

    fn is_zero(self) -> bool {
        self.parts().is_zero()
    }

    fn compare(self, other: Self) -> Ordering {
        self.parts().compare(other.parts())
    }
}
