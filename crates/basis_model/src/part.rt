//! The parts of a cost.

/// A part of a cost at the parameter theta, which is `constant + linear * theta`: the constant, or
/// the factor of theta.
#[derive(Clone, Copy, Debug, PartialEq, Eq)]
pub enum Part {
    Constant,
    Linear,
}

impl Part {
    ghost use Rattle.std.specs.Prelude.{◌≡◌};
    ghost use Rattle.basis_model.specs.Parts.{part_number};

    /// The number of the part in the site of an operation: 0 or 1.
    pub fn number(self) -> u32
        ensures { result ≡ part_number self }
    {
        match self {
            Part::Constant => 0,
            Part::Linear => 1,
        }
    }
}
