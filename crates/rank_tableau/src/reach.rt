//! Whether the square of a quotient is within a bound.
ghost use Rattle.std.specs.Prelude.{◌≡◌, ◌*◌, IfOk};
ghost use Rattle.std.specs.Ordering.{nat_cmp, is_gt};

use frac_core::OutOfMemory;
use natural::Natural;
use std::alloc::Global;
use whole_steps::Quotient;

/// The bound `over / under` of a square, in numbers of any size.
#[derive(Drop)]
pub struct Square {
    pub over: Natural,
    pub under: Natural,
}

/// A number times the square of another.
fn times_square(alloc: Global, n: &Natural, m: u128) -> Result<Natural, OutOfMemory>
    ensures { IfOk result (λ r. r ≡ (n.now * m) * m) }
{
    let factor = Natural::new(alloc, m)?;
    let once = n.mul(alloc, &factor)?;
    let twice = once.mul(alloc, &factor)?;
    Ok(twice)
}

/// Whether the square of a quotient is beyond a bound.
pub(crate) fn is_beyond(alloc: Global, theta: Quotient, bound: &Square) -> Result<bool, OutOfMemory>
    ensures { IfOk result (λ b. b ≡ is_gt (nat_cmp ((bound.now.under * theta.over) * theta.over) ((bound.now.over * theta.under) * theta.under))) }
{
    let square = times_square(alloc, &bound.under, theta.over)?;
    let most = times_square(alloc, &bound.over, theta.under)?;
    Ok(square.compare(&most).is_gt())
}
