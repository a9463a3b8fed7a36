//! Numbers of an answer, which are of any size.
ghost use Rattle.std.specs.Prelude.{◌≡◌, map, IfOk};

use frac_core::{Exact, List, OutOfMemory};
use ratio::Ratio;
use std::alloc::Global;

/// The same numbers, of any size.
pub fn widened<F: Exact>(alloc: Global, values: &[F]) -> Result<List<Ratio>, OutOfMemory>
    ensures { IfOk result (λ made. made ≡ map F.value values.now) }
{
    let mut made = List::new(alloc);
    for value in values {
        let number = Ratio::widen(alloc, *value)?;
        made.add(number)?;
    }
    Ok(made)
}
