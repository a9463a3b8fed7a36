//! The slopes at a basis, each affine in the quantile.
ghost use Rattle.std.specs.Prelude.{◌≡◌, ℤ, ◌<◌, length, IfOk, pos};
ghost use Rattle.whole_inverse.specs.Shares.{share};
ghost use Rattle.tableau_model.specs.Turns.{turned_by};
ghost use Rattle.whole_steps.specs.Stations.{IsStation, over_of, slope_at};

use crate::station::Station;
use basis_model::Part;
use pivot_model::Direction;
use whole_inverse::Obstacle;
use whole_solution::{negation, residual_of};

/// The number, negated downwards.
fn turned(direction: Direction, n: i128) -> Result<i128, Obstacle>
    ensures { IfOk result (λ m. (d : ℤ) → share m d ≡ turned_by direction (share n d)) }
{
    match direction {
        Direction::Upward => Ok(n),
        Direction::Downward => negation(n),
    }
}

impl<'a> Station<'a> {
    /// A part of the slope of a position in a direction, as a numerator over the determinant.
    pub fn slope_number(
        &self,
        position: u32,
        part: Part,
        direction: Direction,
    ) -> Result<i128, Obstacle>
        requires station { IsStation self.now }
        requires position { position < length self.now.basis.now.inverse.now.columns }
        ensures { IfOk result (λ n. share n (over_of self.now) ≡ slope_at self.now part position direction) }
    {
        let price = self.cost_at(position, part, direction);
        let dual = turned(direction, self.dual_at(position, part))?;
        let basis = self.basis;
        let determinant = basis.inverse.determinant();
        let number = residual_of(price, dual, determinant)?;
        Ok(number)
    }
}
