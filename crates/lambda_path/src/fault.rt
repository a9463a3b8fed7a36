//! Why there is no path problem.
ghost use Rattle.std.specs.Prelude.{◌≡◌};
ghost use Rattle.lambda_path.specs.declared.fault.PathFault.TheVariants.{OutOfMemory, Overflow};

use frac_core::{Frac128, OutOfMemory};
use loss_model::Spill;

/// Why a problem has no path problem. The rows are counted first.
#[derive(Clone, Copy, Debug, PartialEq, Eq)]
pub enum PathFault {
    /// No memory was found.
    OutOfMemory,
    /// There are more than 16,384 rows, data and penalty.
    TooManyRows,
    /// An operation of a cost overflows.
    Overflow(Spill<Frac128>),
}

impl From<OutOfMemory> for PathFault {
    ghost from_gives = { λ _ fault. fault ≡ OutOfMemory };

    fn from(_: OutOfMemory) -> PathFault {
        PathFault::OutOfMemory
    }
}

impl From<Spill<Frac128>> for PathFault {
    ghost from_gives = { λ spill fault. fault ≡ Overflow spill };

    fn from(spill: Spill<Frac128>) -> PathFault {
        PathFault::Overflow(spill)
    }
}
