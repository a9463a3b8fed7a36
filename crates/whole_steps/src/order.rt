//! The order of perturbed ratios.
ghost use Rattle.std.specs.Prelude.{◌≡◌, ◌≢◌, IfOk};
ghost use Rattle.whole_steps.specs.Lines.{IsLine, IsMover, comes_before};

use crate::line::{Line, Mover};
use whole_inverse::{Obstacle, WholeInverse};
use wide_int::Natural;

impl<'a> Line<'a, i64, WholeInverse> {
    /// Whether the perturbed ratio of one mover is less than that of another. Further entries of the ratios are looked at
    /// only where the first ones agree.
    pub fn precedes(&self, left: Mover<u128>, right: Mover<u128>) -> Result<bool, Obstacle>
        requires line { IsLine self.now }
        requires left { IsMover self.now left }
        requires right { IsMover self.now right }
        requires differ { left.row ≢ right.row }
        ensures { IfOk result (λ less. less ≡ comes_before self.now left.row right.row) }
    {
        let one = Natural::product(left.residual, right.coord);
        let two = Natural::product(right.residual, left.coord);
        let order = one.compare(two);
        if order.is_eq() {
            return self.break_tie(left, right);
        }
        Ok(order.is_lt())
    }
}
