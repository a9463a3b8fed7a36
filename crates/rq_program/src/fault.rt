//! Why a design has no problem.
ghost use Rattle.std.specs.Prelude.{◌≡◌};
ghost use Rattle.rq_program.specs.declared.fault.ProgramFault.TheVariants.{OutOfMemory};

use std::alloc::{AllocError, AllocFailed};

/// Why a design has no problem. The rows are counted first.
#[derive(Clone, Copy, Debug, PartialEq, Eq)]
pub enum ProgramFault {
    /// No memory was found.
    OutOfMemory,
    /// There are more than 16,384 rows, data and penalty.
    TooManyRows,
    /// There are more than 128 columns.
    TooManyColumns,
}

impl From<AllocError> for ProgramFault {
    ghost from_gives = { λ _ fault. fault ≡ OutOfMemory };

    fn from(_error: AllocError) -> ProgramFault {
        ProgramFault::OutOfMemory
    }
}

impl<T: Drop> From<AllocFailed<T>> for ProgramFault {
    ghost from_gives = { λ _ fault. fault ≡ OutOfMemory };

    fn from(_error: AllocFailed<T>) -> ProgramFault {
        ProgramFault::OutOfMemory
    }
}
