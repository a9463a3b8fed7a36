//! Operations that overflow, and the quantities that they belong to.
use frac_core::{OpKind, OutOfMemory};

/// A quantity that is computed in steps. Most are lists of products added from the left.
#[derive(Clone, Copy, Debug, PartialEq, Eq)]
pub enum Quantity {
    Coordinate,
    Coefficient,
    Residual,
    NonbasicTotal,
    BasicDual,
    DualValue,
    CostValue,
    Slope,
    CostSum,
    Crossing,
    PerturbedRatio,
    ExchangedEntry,
    Loss,
    Score,
    ScaledEntry,
    Gram,
    Projection,
    SquaredLength,
    Ray,
    Statistic,
    DesignEntry,
    PenaltyEntry,
    CheckSum,
    Prediction,
    PathCost,
    ArithValue,
    OffsetResponse,
}

/// The place of an operation: the quantity, its indices, of which those that it does not have are
/// 0, and the term. The product at a term and its addition to the terms before bear the same
/// number.
#[derive(Clone, Copy, Debug, PartialEq, Eq)]
pub struct Site {
    pub quantity: Quantity,
    pub first: u32,
    pub second: u32,
    pub third: u32,
    pub term: u32,
    pub kind: OpKind,
}

impl Site {
    ghost use Rattle.std.specs.Prelude.{◌≡◌};
    ghost use Rattle.loss_model.specs.Spill.{site_of};

    /// The site of a quantity of at most two indices before its products, where `terms` plain
    /// values stand before them.
    pub fn new(quantity: Quantity, first: u32, second: u32, terms: u32) -> Site
        ensures { result ≡ site_of quantity first second terms }
    {
        Site {
            quantity,
            first,
            second,
            third: 0,
            term: terms,
            kind: OpKind::Mul,
        }
    }
}

/// An operation that overflows, with its operands.
#[derive(Clone, Copy, Debug, PartialEq, Eq)]
pub struct Spill<F> {
    pub site: Site,
    pub left: F,
    pub right: F,
}

/// Why a value that takes memory was not made.
#[derive(Drop)]
pub enum Short<F> {
    OutOfMemory,
    Overflow(Spill<F>),
}

impl<F> From<Spill<F>> for Short<F> {
    ghost use Rattle.std.specs.Prelude.{◌≡◌};
    ghost use Rattle.loss_model.specs.declared.spill.Short.TheVariants.{Overflow};

    ghost from_gives = { λ spill short. short ≡ Overflow spill };

    fn from(spill: Spill<F>) -> Short<F> {
        Short::Overflow(spill)
    }
}

impl<F> From<OutOfMemory> for Short<F> {
    ghost use Rattle.std.specs.Prelude.{◌≡◌};
    ghost use Rattle.loss_model.specs.declared.spill.Short.TheVariants.{OutOfMemory};

    ghost from_gives = { λ _ short. short ≡ OutOfMemory };

    fn from(_: OutOfMemory) -> Short<F> {
        Short::OutOfMemory
    }
}
