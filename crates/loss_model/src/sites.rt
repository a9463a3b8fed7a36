//! Operations at a site: each gives the exact value, or the spill that names the operation.

ghost use Rattle.std.specs.Prelude.{◌≡◌, ◌≢◌, ◌↔◌, ◌+◌, ◌<◌, ◌^◌, length, pos, IfOk, IfErr, IsErr};
ghost use Rattle.rational_laws.specs.Fraction.{rational};
ghost use Rattle.rational_laws.specs.Rational.{◌+ℚ◌, ◌-ℚ◌, ◌*ℚ◌, inverse, whole};
ghost use Rattle.frac_core.specs.Overflow.{IsWithin, Overflows};
ghost use Rattle.loss_model.specs.Problem.{value_at};
ghost use Rattle.loss_model.specs.Spill.{Products, total, IsTermSpill, IsSpillOf};
ghost use Rattle.loss_model.specs.Sign.{signed, products_of};

use crate::spill::{Site, Spill};
use frac_core::{Exact, Op, OpKind};

/// Whether the left factors of products are taken as they are or negated.
#[derive(Clone, Copy, Debug, PartialEq, Eq)]
pub enum Sign {
    Plus,
    Minus,
}

impl Sign {
    /// The value, or its negation.
    pub fn apply<F: Exact>(self, value: F) -> F
        ensures { rational (F.value result) ≡ signed self (rational (F.value value)) }
    {
        match self {
            Sign::Plus => value,
            Sign::Minus => value.neg(),
        }
    }
}

// The spill of a refused operation.
fn spill_at<F: Copy>(site: Site, op: Op<F>) -> Spill<F>
    ensures { result ≡ record { site = record site { kind = op.kind }; left = op.left; right = op.right } }
{
    Spill {
        site: Site {
            kind: op.kind,
            ..site
        },
        left: op.left,
        right: op.right,
    }
}

/// The sum, or the spill exactly where the addition overflows.
pub fn plus_at<F: Exact>(site: Site, left: F, right: F) -> Result<F, Spill<F>>
    ensures exact { IfOk result (λ r. rational (F.value r) ≡ rational (F.value left) +ℚ rational (F.value right)) }
    ensures refused { IsErr result ↔ Overflows F.range OpKind.Add (F.value left) (F.value right) }
    ensures operands { IfErr result (λ s. s ≡ record { site = record site { kind = OpKind.Add }; left = left; right = right }) }
    ensures within { IfOk result (λ r. IsWithin F.range (F.value r)) }
{
    match left.try_add(right) {
        Ok(sum) => Ok(sum),
        Err(op) => Err(spill_at(site, op)),
    }
}

/// The difference, or the spill exactly where the subtraction overflows.
pub fn minus_at<F: Exact>(site: Site, left: F, right: F) -> Result<F, Spill<F>>
    ensures exact { IfOk result (λ r. rational (F.value r) ≡ rational (F.value left) -ℚ rational (F.value right)) }
    ensures refused { IsErr result ↔ Overflows F.range OpKind.Sub (F.value left) (F.value right) }
    ensures operands { IfErr result (λ s. s ≡ record { site = record site { kind = OpKind.Sub }; left = left; right = right }) }
    ensures within { IfOk result (λ r. IsWithin F.range (F.value r)) }
{
    match left.try_sub(right) {
        Ok(difference) => Ok(difference),
        Err(op) => Err(spill_at(site, op)),
    }
}

/// The product, or the spill exactly where the multiplication overflows.
pub fn times_at<F: Exact>(site: Site, left: F, right: F) -> Result<F, Spill<F>>
    ensures exact { IfOk result (λ r. rational (F.value r) ≡ rational (F.value left) *ℚ rational (F.value right)) }
    ensures refused { IsErr result ↔ Overflows F.range OpKind.Mul (F.value left) (F.value right) }
    ensures operands { IfErr result (λ s. s ≡ record { site = record site { kind = OpKind.Mul }; left = left; right = right }) }
    ensures within { IfOk result (λ r. IsWithin F.range (F.value r)) }
{
    match left.try_mul(right) {
        Ok(product) => Ok(product),
        Err(op) => Err(spill_at(site, op)),
    }
}

/// The quotient, or the spill exactly where the division overflows.
pub fn over_at<F: Exact>(site: Site, left: F, right: F) -> Result<F, Spill<F>>
    requires { rational (F.value right) ≢ whole (pos 0) }
    ensures exact { IfOk result (λ r. rational (F.value r) ≡ rational (F.value left) *ℚ inverse (rational (F.value right))) }
    ensures refused { IsErr result ↔ Overflows F.range OpKind.Div (F.value left) (F.value right) }
    ensures operands { IfErr result (λ s. s ≡ record { site = record site { kind = OpKind.Div }; left = left; right = right }) }
    ensures within { IfOk result (λ r. IsWithin F.range (F.value r)) }
{
    match left.try_div(right) {
        Ok(quotient) => Ok(quotient),
        Err(op) => Err(spill_at(site, op)),
    }
}

/// `first` plus a product. Both operations have the term `site.term + 1`. Neither is made where a
/// factor is 0, for then it changes nothing and cannot overflow.
#[tactic(auto, using(crate::proofs::Products::plus_zero_left, crate::proofs::Products::plus_zero_right))]
pub fn plus_product<F: Exact>(site: Site, first: F, left: F, right: F) -> Result<F, Spill<F>>
    requires few { site.term + 1 < 2 ^ 32 }
    ensures exact { IfOk result (λ r. rational (F.value r) ≡ rational (F.value first) +ℚ (rational (F.value left) *ℚ rational (F.value right))) }
    ensures spilled { IfErr result (IsTermSpill F.value F.range site (rational (F.value first)) (rational (F.value left)) (rational (F.value right))) }
{
    if left.is_zero() || right.is_zero() {
        return Ok(first);
    }
    let at = Site {
        term: site.term + 1,
        ..site
    };
    let product = times_at(at, left, right)?;
    plus_at(at, first, product)
}

/// `first` plus or minus the products of the two lists, added from the left.
///
/// The site's term is the number of terms before the products: product `k`, counted from 0, and its
/// addition have the term `site.term + k + 1`. Products of which a factor is 0 are passed over. A
/// spill names one of these operations, which overflows, and has its operands.
pub fn sum_of_products<F: Exact>(
    site: Site,
    first: F,
    sign: Sign,
    left: &[F],
    right: &[F],
) -> Result<F, Spill<F>>
    requires same { length left.now ≡ length right.now }
    requires few { site.term + length left.now < 2 ^ 32 }
    ensures exact { IfOk result (λ r. rational (F.value r) ≡ total (products_of F.value first sign left.now right.now)) }
    ensures spilled { IfErr result (IsSpillOf F.value F.range site (products_of F.value first sign left.now right.now)) }
{
    let mut sum = first;
    for k in 0..left.len() {
        let before = Site {
            term: site.term + k as u32,
            ..site
        };
        sum = plus_product(before, sum, sign.apply(left[k]), right[k])?;
    }
    Ok(sum)
}
