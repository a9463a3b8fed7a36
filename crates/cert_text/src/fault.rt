//! Why bytes are no certificate.
ghost use Rattle.std.specs.Prelude.{◌≡◌};
ghost use Rattle.cert_text.specs.declared.fault.CertFault.TheVariants.{OutOfMemory};

use frac_core::Text;
use std::alloc::{AllocError, AllocFailed};

/// Why bytes are no certificate. A path is the JSON pointer (RFC 6901) to what is wrong, and empty for
/// the whole text.
#[derive(Drop)]
pub enum CertFault {
    /// No memory was found.
    OutOfMemory,
    /// The bytes are no JSON.
    NotJson,
    /// A key is missing or unknown, or a value is of another kind than a certificate has there, or sides or moves
    /// don't go with the rest of a chain.
    Shape { path: Text },
    /// A string is no number text, or is one that is too wide or has too many digits.
    Number { path: Text },
    /// The version is none of 1 to 3.
    Version,
    /// There are more than 128 columns, 16,384 rows, 2^20 segments or 8,192 intervals, or rows times segments
    /// exceed 2^30.
    TooLarge,
}

impl From<AllocError> for CertFault {
    ghost from_gives = { λ _ fault. fault ≡ OutOfMemory };

    fn from(_error: AllocError) -> CertFault {
        CertFault::OutOfMemory
    }
}

impl<T: Drop> From<AllocFailed<T>> for CertFault {
    ghost from_gives = { λ _ fault. fault ≡ OutOfMemory };

    fn from(_error: AllocFailed<T>) -> CertFault {
        CertFault::OutOfMemory
    }
}

impl From<frac_core::OutOfMemory> for CertFault {
    ghost from_gives = { λ _ fault. fault ≡ OutOfMemory };

    fn from(_error: frac_core::OutOfMemory) -> CertFault {
        CertFault::OutOfMemory
    }
}
