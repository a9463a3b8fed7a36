//! How many numbered operations an arithmetic has.
ghost use Rattle.std.specs.Prelude.{◌≡◌, ◌^◌, is_some, nat_lt};
ghost use Rattle.formula_arith.specs.Codes.{numbered_in};

use crate::operands::numbered;
use frac_core::{Arith, ArithOp};

/// Whether the numbered operations of an arithmetic are counted in 32 bits, as `evaluate` asks.
pub fn is_short(arith: &Arith) -> bool
    ensures { result ≡ nat_lt (numbered_in arith.now.code) (2 ^ 32) }
{
    count_of(arith.code.as_slice()).is_some()
}

// How many numbered operations code has, if 32 bits count them.
fn count_of(code: &[ArithOp]) -> Option<u32>
    ensures { is_some result ≡ nat_lt (numbered_in code.now) (2 ^ 32) }
{
    let mut count: u32 = 0;
    for op in code {
        count = count.checked_add(numbered(*op))?;
    }
    Some(count)
}
