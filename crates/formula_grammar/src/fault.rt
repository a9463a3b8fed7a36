//! Why tokens are no formula.
ghost use Rattle.std.specs.Prelude.{◌≡◌};
ghost use Rattle.formula_grammar.specs.declared.fault.ReadFault.TheVariants.{OutOfMemory};

/// Why tokens are no formula. Offsets count the text's bytes from 0.
#[derive(Clone, Copy, Debug, PartialEq, Eq)]
pub enum ReadFault {
    /// No memory was found.
    OutOfMemory,
    /// No formula can have this token there. The end of the text counts as a token.
    Syntax { offset: u32 },
    /// The parenthesis is the 65th that is open at once.
    TooDeep { offset: u32 },
    /// The exponent's value isn't 1 to 8.
    PowerRange { offset: u32 },
    /// The number doesn't fit the fractions of 128 bits.
    NumberTooWide { offset: u32 },
}

impl From<frac_core::OutOfMemory> for ReadFault {
    ghost from_gives = { λ _ fault. fault ≡ OutOfMemory };

    fn from(_error: frac_core::OutOfMemory) -> ReadFault {
        ReadFault::OutOfMemory
    }
}
