//! Why a solver stops without an answer.
use crate::process::Trail;
use crate::spill::Spill;
use frac_core::{List, OutOfMemory};
use ratio::Ratio;

/// A stop of the solver, with what shows that it had to stop.
#[derive(Drop)]
pub enum Stop<F> {
    /// No memory was found.
    OutOfMemory,
    /// The limit of pivots was reached, and the last basis of the trail still has a pivot to make.
    PivotLimit { limit: u32, trail: Trail },
    /// An operation at the last basis of the trail overflows.
    Overflow { trail: Trail, spill: Spill<F> },
    /// The columns are dependent: the combination is not 0, and every row sends it to 0.
    Dependent { combination: List<Ratio> },
}

impl<F> From<OutOfMemory> for Stop<F> {
    ghost use Rattle.std.specs.Prelude.{◌≡◌};
    ghost use Rattle.loss_model.specs.declared.stop.Stop.TheVariants.{OutOfMemory};

    ghost from_gives = { λ _ stop. stop ≡ OutOfMemory };

    fn from(_: OutOfMemory) -> Stop<F> {
        Stop::OutOfMemory
    }
}
