//! The value of a number that is written without a sign.

ghost use Rattle.std.specs.Prelude.{◌≡◌, pos, unsigned_abs};

use frac_core::{Exact, Frac128};

/// A fraction that isn't negative.
#[derive(Clone, Copy, Debug, PartialEq, Eq)]
pub struct Magnitude {
    pub(crate) fraction: Frac128,
    ghost unsigned: { fraction.num ≡ pos (unsigned_abs fraction.num) },
}

impl Magnitude {
    ghost use Rattle.formula_grammar.specs.Magnitudes.{capped};

    /// The fraction.
    pub fn fraction(self) -> Frac128
        ensures { result ≡ self.fraction }
    {
        self.fraction
    }

    /// The numerator, or 9 where it is more than 8.
    pub(crate) fn capped(self) -> u32
        ensures { result ≡ capped self }
    {
        let size = self.fraction.numerator().unsigned_abs();
        if size <= 8 { size as u32 } else { 9 }
    }
}
