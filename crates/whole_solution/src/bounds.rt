//! The bounds of the dual value of a row.
ghost use Rattle.std.specs.Prelude.{◌≡◌, IfOk, pos};
ghost use Rattle.rational_laws.specs.Rational.{neg_ℚ, whole};
ghost use Rattle.whole_solution.specs.Weighing.{bound_of};

use basis_model::Part;
use loss_model::Side;
use whole_inverse::Obstacle;
use whole_rows::WholeRow;

/// The negated number.
fn negation(n: i64) -> Result<i64, Obstacle>
    ensures { IfOk result (λ m. whole m ≡ neg_ℚ (whole n)) }
{
    match n.checked_neg() {
        Some(m) => Ok(m),
        None => Err(Obstacle::TooWide),
    }
}

/// A part of the dual value of a row on a side.
pub fn bound(chosen: &WholeRow<i64>, side: Side, part: Part) -> Result<i64, Obstacle>
    ensures { IfOk result (λ b. whole b ≡ bound_of chosen.now part side) }
{
    match (side, part) {
        (Side::Up, Part::Constant) => Ok(chosen.up0),
        (Side::Up, Part::Linear) => Ok(chosen.up1),
        (Side::Down, Part::Constant) => negation(chosen.down0),
        (Side::Down, Part::Linear) => negation(chosen.down1),
        (Side::Basic, _) => Ok(0),
    }
}
