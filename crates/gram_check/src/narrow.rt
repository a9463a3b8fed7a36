//! Numbers of any size in 128 bits.
ghost use Rattle.std.specs.Prelude.{◌≡◌, IfOk, IfSome};
ghost use Rattle.wide_int.specs.Numbers.{signed};

use natural::Natural;
use ratio::Integer;
use whole_inverse::Obstacle;
use wide_int::Wide;

/// The number of a sign and a size, where it has 127 bits and a sign.
fn narrow_number(negative: bool, size: &Natural) -> Option<i128>
    ensures { IfSome result (λ n. n ≡ signed negative size.now) }
{
    let low = size.narrow()?;
    let wide = Wide {
        negative,
        size: wide_int::Natural::of(low),
    };
    let number = wide.narrow()?;
    Some(number)
}

/// A number in 128 bits, or that it is too wide for them.
pub(crate) fn narrow(number: &Integer) -> Result<i128, Obstacle> {
    match narrow_number(number.is_negative(), number.size()) {
        Some(narrow) => Ok(narrow),
        None => Err(Obstacle::TooWide),
    }
}
