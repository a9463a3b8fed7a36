//! Why bytes are no table.
ghost use Rattle.std.specs.Prelude.{◌≡◌};
ghost use Rattle.data_frame.specs.declared.fault.TableFault.TheVariants.{OutOfMemory};

use std::alloc::{AllocError, AllocFailed};

/// Why bytes are no table. Records are counted from 1, and the header is record 0; columns are
/// counted from 0, one that is set aside among them.
#[derive(Clone, Copy, Debug, PartialEq, Eq)]
pub enum TableFault {
    /// No memory was found.
    OutOfMemory,
    /// There is no record.
    NoHeader,
    /// A field of the record is no UTF-8.
    NotUtf8 { rec: u32 },
    /// The record has another number of fields than the header.
    Ragged { rec: u32, found: u32, wanted: u32 },
    /// The name stands further left too.
    DoubleName { column: u32 },
    /// The name is empty.
    EmptyName { column: u32 },
    /// The header has more than 1,024 fields.
    TooManyColumns,
    /// More than 16,384 records stand under the header.
    TooManyRows,
}

impl From<AllocError> for TableFault {
    ghost from_gives = { λ _ fault. fault ≡ OutOfMemory };

    fn from(_error: AllocError) -> TableFault {
        TableFault::OutOfMemory
    }
}

impl<T: Drop> From<AllocFailed<T>> for TableFault {
    ghost from_gives = { λ _ fault. fault ≡ OutOfMemory };

    fn from(_error: AllocFailed<T>) -> TableFault {
        TableFault::OutOfMemory
    }
}

impl From<frac_core::OutOfMemory> for TableFault {
    ghost from_gives = { λ _ fault. fault ≡ OutOfMemory };

    fn from(_error: frac_core::OutOfMemory) -> TableFault {
        TableFault::OutOfMemory
    }
}
