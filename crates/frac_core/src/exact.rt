//! The trait of exact fractions of a bounded size, and the operations that these may refuse.
ghost use Rattle.std.specs.Prelude.{◌≡◌, ◌≢◌, ◌↔◌, ◌-◌, ◌^◌, ◌≤◌, ◌⊎◌, pos, ℕ, ℤ, unsigned_abs, IfOk, IfErr, IsErr, IfSome, IsNone, IsTrue};
ghost use Rattle.rational_laws.specs.Fraction.{Fraction, rational};
ghost use Rattle.rational_laws.specs.Rational.{◌+ℚ◌, ◌-ℚ◌, ◌*ℚ◌, neg_ℚ, inverse, whole};
ghost use Rattle.rational_laws.specs.Order.{cmp_ℚ, sign_ℚ};
ghost use Rattle.frac_core.specs.Overflow.{IsWithin, ReducesWithin, Overflows};

use std::cmp::Ordering;

/// The four operations that may be refused.
#[derive(Clone, Copy, Debug, PartialEq, Eq)]
pub enum OpKind {
    Add,
    Sub,
    Mul,
    Div,
}

/// An operation that was refused, with its operands as they were given.
#[derive(Clone, Copy, Debug, PartialEq, Eq)]
pub struct Op<F> {
    pub kind: OpKind,
    pub left: F,
    pub right: F,
}

/// A fraction in lowest terms, neither part of which exceeds `RANGE` in size.
///
/// Every operation gives the exact value or refuses; none rounds and none takes memory
/// (Knuth, TAOCP 4.5.1).
pub trait Exact: Copy + Send + Sync {
    /// The fraction that a value stands for.
    ghost value: { Self → Fraction };

    /// The greatest size of a numerator or denominator.
    ghost range: { ℕ };

    /// `RANGE`, as clauses see it.
    ghost RANGE: { ℤ };

    /// The greatest size of a numerator or denominator, at least `2^63 - 1`.
    const RANGE: i128;

    /// 0
    fn zero() -> Self
        ensures { rational (value result) ≡ whole (pos 0) };

    /// 1
    fn one() -> Self
        ensures { rational (value result) ≡ whole (pos 1) };

    /// `n / d`, and `None` exactly where `d` is 0 or the fraction in lowest terms is out of range.
    fn from_parts(n: i128, d: i128) -> Option<Self>
        ensures exact { IfSome result (λ r. rational (value r) ≡ whole n *ℚ inverse (whole d)) }
        ensures refused { IsNone result ↔ ((d ≡ pos 0) ⊎ ¬ (ReducesWithin range n (unsigned_abs d))) };

    /// The numerator, which carries the sign.
    fn numerator(self) -> i128
        ensures { result ≡ (value self).num };

    /// The denominator, at least 1.
    fn denominator(self) -> i128
        ensures { result ≡ pos (value self).den };

    /// The sum, or the operation where it overflows.
    fn try_add(self, other: Self) -> Result<Self, Op<Self>>
        ensures exact { IfOk result (λ r. rational (value r) ≡ rational (value self) +ℚ rational (value other)) }
        ensures refused { IsErr result ↔ Overflows range OpKind.Add (value self) (value other) }
        ensures operands { IfErr result (λ op. op ≡ record { kind = OpKind.Add; left = self; right = other }) };

    /// The difference, or the operation where it overflows: where adding the negated operand does.
    fn try_sub(self, other: Self) -> Result<Self, Op<Self>>
        ensures exact { IfOk result (λ r. rational (value r) ≡ rational (value self) -ℚ rational (value other)) }
        ensures refused { IsErr result ↔ Overflows range OpKind.Sub (value self) (value other) }
        ensures operands { IfErr result (λ op. op ≡ record { kind = OpKind.Sub; left = self; right = other }) };

    /// The product, or the operation exactly where the product in lowest terms is out of range.
    fn try_mul(self, other: Self) -> Result<Self, Op<Self>>
        ensures exact { IfOk result (λ r. rational (value r) ≡ rational (value self) *ℚ rational (value other)) }
        ensures refused { IsErr result ↔ Overflows range OpKind.Mul (value self) (value other) }
        ensures operands { IfErr result (λ op. op ≡ record { kind = OpKind.Mul; left = self; right = other }) };

    /// The quotient, or the operation exactly where the quotient in lowest terms is out of range.
    fn try_div(self, other: Self) -> Result<Self, Op<Self>>
        requires { rational (value other) ≢ whole (pos 0) }
        ensures exact { IfOk result (λ r. rational (value r) ≡ rational (value self) *ℚ inverse (rational (value other))) }
        ensures refused { IsErr result ↔ Overflows range OpKind.Div (value self) (value other) }
        ensures operands { IfErr result (λ op. op ≡ record { kind = OpKind.Div; left = self; right = other }) };

    /// The negated value.
    fn neg(self) -> Self
        ensures { rational (value result) ≡ neg_ℚ (rational (value self)) };

    /// -1, 0 or 1.
    fn sign(self) -> i8
        ensures { result ≡ sign_ℚ (rational (value self)) };

    /// Whether it is 0.
    fn is_zero(self) -> bool
        ensures { IsTrue result ↔ (rational (value self) ≡ whole (pos 0)) };

    /// How it compares with another value.
    fn compare(self, other: Self) -> Ordering
        ensures { result ≡ cmp_ℚ (rational (value self)) (rational (value other)) };

    /// Every value is in lowest terms and within range.
    ghost within: { (x : Self) → IsWithin range (value x) };

    /// Values of equal fractions are the same value.
    ghost same: { (x y : Self) → rational (value x) ≡ rational (value y) → x ≡ y };

    ghost range_is: { RANGE ≡ pos range };

    ghost range_is_wide: { 2 ^ 63 - 1 ≤ range };
}
