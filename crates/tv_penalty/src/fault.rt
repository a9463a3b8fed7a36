//! Why the smooths of a formula add nothing to a design.
ghost use Rattle.std.specs.Prelude.{◌≡◌};
ghost use Rattle.tv_penalty.specs.declared.fault.PenaltyFault.TheVariants.{OutOfMemory, Overflow};

use frac_core::{Frac128, Text};
use loss_model::Spill;
use std::alloc::{AllocError, AllocFailed};

/// Why the smooths of a formula add nothing to a design. Smooths are looked at one after the other:
/// the column first, then the knots, the number of columns, and the penalty rows.
#[derive(Drop)]
pub enum PenaltyFault {
    /// No memory was found.
    OutOfMemory,
    /// The smooth's column is a factor.
    NotNumeric { name: Text },
    /// The column has fewer than 3 values.
    TooFewKnots { name: Text },
    /// An operation of a penalty row overflows.
    Overflow(Spill<Frac128>),
    /// The columns of the design and of the smooths up to one of them are more than 128.
    TooManyColumns,
}

impl From<AllocError> for PenaltyFault {
    ghost from_gives = { λ _ fault. fault ≡ OutOfMemory };

    fn from(_error: AllocError) -> PenaltyFault {
        PenaltyFault::OutOfMemory
    }
}

impl<T: Drop> From<AllocFailed<T>> for PenaltyFault {
    ghost from_gives = { λ _ fault. fault ≡ OutOfMemory };

    fn from(_error: AllocFailed<T>) -> PenaltyFault {
        PenaltyFault::OutOfMemory
    }
}

impl From<Spill<Frac128>> for PenaltyFault {
    ghost from_gives = { λ spill fault. fault ≡ Overflow spill };

    fn from(spill: Spill<Frac128>) -> PenaltyFault {
        PenaltyFault::Overflow(spill)
    }
}
