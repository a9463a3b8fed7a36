//! Fractions of 64 bits as such of 128, and back.
ghost use Rattle.std.specs.Prelude.{◌≡◌, ◌↔◌, ◌-◌, ◌^◌, IfSome, IsNone};
ghost use Rattle.frac_core.specs.Overflow.{IsWithin};
ghost use Rattle.frac_core.specs.Values.{narrow_value, value as wide_value};

use crate::{Frac64, Frac128};

// The greatest size of a part of 64 bits.
const LIMIT: u128 = i64::MAX as u128;

/// The same value in 128 bits.
pub fn widen(value: Frac64) -> Frac128
    ensures { wide_value result ≡ narrow_value value }
{
    Frac128::from_lowest(value.parts())
}

/// The same value in 64 bits, and `None` exactly where a part of it is beyond these.
pub fn narrow(value: Frac128) -> Option<Frac64>
    ensures same { IfSome result (λ made. narrow_value made ≡ wide_value value) }
    ensures refused { IsNone result ↔ ¬ (IsWithin (2 ^ 63 - 1) (wide_value value)) }
{
    let parts = value.parts();
    if parts.num.unsigned_abs() <= LIMIT && parts.den <= LIMIT {
        Some(Frac64::from_lowest(parts))
    } else {
        None
    }
}
