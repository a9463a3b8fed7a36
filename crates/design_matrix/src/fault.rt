//! Why a table and a formula have no design.
ghost use Rattle.std.specs.Prelude.{◌≡◌};
ghost use Rattle.design_matrix.specs.declared.fault.DesignFault.TheVariants.{OutOfMemory, Overflow};

use frac_core::{Frac128, Text};
use loss_model::Spill;
use std::alloc::{AllocError, AllocFailed};

/// Why a table and a formula have no design, in the order in which the causes are looked for, except for the last
/// two. Records are counted from 1.
#[derive(Drop)]
pub enum DesignFault {
    /// No memory was found.
    OutOfMemory,
    /// The weights are no column of the table.
    UnknownWeights,
    /// The response is a factor.
    ResponseNotNumeric,
    /// The weights are a factor.
    WeightNotNumeric,
    /// The column is used, and its number in this record is too wide.
    NumberTooWide { rec: u32, column: Text },
    /// The record's weight is below 0.
    NegativeWeight { rec: u32 },
    /// No record is kept.
    NoRows,
    /// The factor is coded by contrasts and has one level.
    OneLevel { factor: Text },
    /// The formula has neither intercept nor terms nor smooths.
    NoColumns,
    /// The design has more than 128 columns.
    TooManyColumns,
    /// An operation of an arithmetic, of a response or of an entry overflows.
    Overflow(Spill<Frac128>),
    /// The name stands in an arithmetic, and its column is a factor. It is looked for before numbers that are
    /// too wide.
    ArithNotNumeric { name: Text },
    /// The record is predicted, and its cell of the factor is no level of the kept records. It is looked
    /// for when the record is predicted.
    UnknownLevel { rec: u32, factor: Text },
}

impl From<AllocError> for DesignFault {
    ghost from_gives = { λ _ fault. fault ≡ OutOfMemory };

    fn from(_error: AllocError) -> DesignFault {
        DesignFault::OutOfMemory
    }
}

impl<T: Drop> From<AllocFailed<T>> for DesignFault {
    ghost from_gives = { λ _ fault. fault ≡ OutOfMemory };

    fn from(_error: AllocFailed<T>) -> DesignFault {
        DesignFault::OutOfMemory
    }
}

impl From<frac_core::OutOfMemory> for DesignFault {
    ghost from_gives = { λ _ fault. fault ≡ OutOfMemory };

    fn from(_error: frac_core::OutOfMemory) -> DesignFault {
        DesignFault::OutOfMemory
    }
}

impl From<Spill<Frac128>> for DesignFault {
    ghost from_gives = { λ spill fault. fault ≡ Overflow spill };

    fn from(spill: Spill<Frac128>) -> DesignFault {
        DesignFault::Overflow(spill)
    }
}
