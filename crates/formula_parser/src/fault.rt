//! Why a text is no formula over a table's columns.
ghost use Rattle.std.specs.Prelude.{◌≡◌};
ghost use Rattle.formula_parser.specs.Widened.{halt_fault, read_fault};
ghost use Rattle.formula_parser.specs.declared.fault.FormulaFault.TheVariants.{OutOfMemory};

use crate::evaluation::Halt;
use formula_grammar::ReadFault;
use std::alloc::AllocError;

/// Why a text is no formula over a table's columns. Offsets count the text's bytes from 0.
#[derive(Clone, Copy, Debug, PartialEq, Eq)]
pub enum FormulaFault {
    /// No memory was found.
    OutOfMemory,
    /// No formula can have this token there. The end of the text counts as a token.
    Syntax { offset: u32 },
    /// The name is no column of the table.
    UnknownName { offset: u32 },
    /// The parenthesis is the 65th that is open at once.
    TooDeep { offset: u32 },
    /// The operator gives more than 4,096 terms.
    TooManyTerms { offset: u32 },
    /// The exponent's value isn't 1 to 8.
    PowerRange { offset: u32 },
    /// The number doesn't fit the fractions of 128 bits.
    NumberTooWide { offset: u32 },
}

impl From<AllocError> for FormulaFault {
    ghost from_gives = { λ _ fault. fault ≡ OutOfMemory };

    fn from(_error: AllocError) -> FormulaFault {
        FormulaFault::OutOfMemory
    }
}

impl From<frac_core::OutOfMemory> for FormulaFault {
    ghost from_gives = { λ _ fault. fault ≡ OutOfMemory };

    fn from(_error: frac_core::OutOfMemory) -> FormulaFault {
        FormulaFault::OutOfMemory
    }
}

impl From<ReadFault> for FormulaFault {
    ghost from_gives = { λ error fault. fault ≡ read_fault error };

    fn from(error: ReadFault) -> FormulaFault {
        match error {
            ReadFault::OutOfMemory => FormulaFault::OutOfMemory,
            ReadFault::Syntax { offset } => FormulaFault::Syntax { offset },
            ReadFault::TooDeep { offset } => FormulaFault::TooDeep { offset },
            ReadFault::PowerRange { offset } => FormulaFault::PowerRange { offset },
            ReadFault::NumberTooWide { offset } => FormulaFault::NumberTooWide { offset },
        }
    }
}

impl From<Halt> for FormulaFault {
    ghost from_gives = { λ halt fault. fault ≡ halt_fault halt };

    fn from(halt: Halt) -> FormulaFault {
        match halt {
            Halt::OutOfMemory => FormulaFault::OutOfMemory,
            Halt::TooManyTerms { at } => FormulaFault::TooManyTerms { offset: at },
        }
    }
}
