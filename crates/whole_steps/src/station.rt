//! A basis of rows in whole numbers, with what stands there.
ghost use Rattle.std.specs.Prelude.{◌≡◌, ◌<◌, length, pos};
ghost use Rattle.rational_laws.specs.Rational.{whole};
ghost use Rattle.basis_model.specs.Basis.{basic_dual};
ghost use Rattle.whole_inverse.specs.Shares.{share};
ghost use Rattle.whole_steps.specs.Stations.{IsStation, model, at_of, inverse_at, over_of, cost_of, cost_part};

use basis_model::Part;
use pivot_model::Direction;
use whole_inverse::WholeInverse;
use whole_rows::WholeRow;
use whole_solution::{WholeBasis, WholeSolution};

/// A basis of rows in whole numbers, with what stands there.
#[derive(Clone, Copy)]
pub struct Station<'a> {
    pub basis: &'a WholeBasis<'a, i64, WholeInverse>,
    pub solution: &'a WholeSolution,
}

/// A part of the cost of a row in a direction.
fn cost(chosen: &WholeRow<i64>, part: Part, direction: Direction) -> i64
    ensures { whole result ≡ cost_of chosen.now part direction }
{
    match (part, direction) {
        (Part::Constant, Direction::Upward) => chosen.up0,
        (Part::Constant, Direction::Downward) => chosen.down0,
        (Part::Linear, Direction::Upward) => chosen.up1,
        (Part::Linear, Direction::Downward) => chosen.down1,
    }
}

impl<'a> Station<'a> {
    /// The row at a position.
    fn row_at(&self, position: u32) -> u32
        requires station { IsStation self.now }
        requires position { position < length self.now.basis.now.inverse.now.columns }
        ensures row { result ≡ at_of self.now position }
        ensures within { result < length self.now.basis.now.rows.now }
    {
        let basis = self.basis;
        let held = basis.basis.rows.as_slice();
        held[position as usize]
    }

    /// A part of the cost of the row at a position in a direction.
    pub(crate) fn cost_at(&self, position: u32, part: Part, direction: Direction) -> i64
        requires station { IsStation self.now }
        requires position { position < length self.now.basis.now.inverse.now.columns }
        ensures { whole result ≡ cost_part (model self.now) part direction (at_of self.now position) }
    {
        let row = self.row_at(position);
        let basis = self.basis;
        let rows = basis.rows;
        let chosen = &rows[row as usize];
        cost(chosen, part, direction)
    }

    /// A part of the dual value at a position.
    pub(crate) fn dual_at(&self, position: u32, part: Part) -> i128
        requires station { IsStation self.now }
        requires position { position < length self.now.basis.now.inverse.now.columns }
        ensures { share result (over_of self.now) ≡ basic_dual (model self.now) (at_of self.now) (inverse_at self.now) part position }
    {
        let solution = self.solution;
        match part {
            Part::Constant => {
                let constant = solution.constant.as_slice();
                constant[position as usize]
            }
            Part::Linear => {
                let linear = solution.linear.as_slice();
                linear[position as usize]
            }
        }
    }
}
