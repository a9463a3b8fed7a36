//! Operations by their numbers: each gives the exact value, or the fault that names it.

ghost use Rattle.std.specs.Prelude.{◌≡◌, ◌∷◌, [], ◌+◌, ◌-◌, ◌<◌, ◌^◌, IfErr, IfOk, OnOk};
ghost use Rattle.rational_laws.specs.Rational.{◌+ℚ◌, ◌-ℚ◌, ◌*ℚ◌};
ghost use Rattle.frac_core.specs.Values.{exact};
ghost use Rattle.formula_arith.specs.Arithmetics.{Plus, Minus};
ghost use Rattle.formula_arith.specs.Values.{multiplication, power_multiplications, raised_by, signed_operation};
ghost use Rattle.formula_arith.specs.Evaluations.{NoneOverflows};
ghost use Rattle.formula_arith.specs.Machine.{Halts, IsNamed};

use crate::fault::ArithFault;
use frac_core::{Exact, Frac128};

/// The sum, or the fault that names the operation by its number.
pub(crate) fn add(term: u32, left: Frac128, right: Frac128) -> Result<Frac128, ArithFault>
    ensures value { IfOk result (λ x. exact x ≡ exact left +ℚ exact right) }
    ensures fits { OnOk result (NoneOverflows (signed_operation Plus (exact left) (exact right) ∷ [])) }
    ensures named { IfErr result (IsNamed term (signed_operation Plus (exact left) (exact right))) }
{
    match left.try_add(right) {
        Ok(sum) => Ok(sum),
        Err(op) => Err(ArithFault::Overflow { term, op }),
    }
}

/// The difference, or the fault that names the operation by its number.
pub(crate) fn subtract(term: u32, left: Frac128, right: Frac128) -> Result<Frac128, ArithFault>
    ensures value { IfOk result (λ x. exact x ≡ exact left -ℚ exact right) }
    ensures fits { OnOk result (NoneOverflows (signed_operation Minus (exact left) (exact right) ∷ [])) }
    ensures named { IfErr result (IsNamed term (signed_operation Minus (exact left) (exact right))) }
{
    match left.try_sub(right) {
        Ok(difference) => Ok(difference),
        Err(op) => Err(ArithFault::Overflow { term, op }),
    }
}

/// The product, or the fault that names the operation by its number.
pub(crate) fn multiply(term: u32, left: Frac128, right: Frac128) -> Result<Frac128, ArithFault>
    ensures value { IfOk result (λ x. exact x ≡ exact left *ℚ exact right) }
    ensures fits { OnOk result (NoneOverflows (multiplication (exact left) (exact right) ∷ [])) }
    ensures named { IfErr result (IsNamed term (multiplication (exact left) (exact right))) }
{
    match left.try_mul(right) {
        Ok(product) => Ok(product),
        Err(op) => Err(ArithFault::Overflow { term, op }),
    }
}

/// The power, whose factors are multiplied from the left, behind so many operations.
pub(crate) fn raise(count: u32, base: Frac128, exponent: u32) -> Result<Frac128, ArithFault>
    requires { count + (exponent - 1) < 2 ^ 32 }
    ensures value { IfOk result (λ x. exact x ≡ raised_by (exponent - 1) (exact base)) }
    ensures fits { OnOk result (NoneOverflows (power_multiplications (exponent - 1) (exact base))) }
    ensures cause { IfErr result (Halts count (power_multiplications (exponent - 1) (exact base))) }
{
    let mut power = base;
    for factor in 1..exponent {
        power = multiply(count + factor, power, base)?;
    }
    Ok(power)
}
