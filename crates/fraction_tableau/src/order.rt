//! The order of perturbed ratios.
ghost use Rattle.std.specs.Prelude.{◌≡◌, ◌≢◌, ◌<◌, length, true, IfOk, IfErr};
ghost use Rattle.loss_model.specs.Quantities.{IsShortOf};
ghost use Rattle.fraction_tableau.specs.Lines.{IsLine, IsLineSpill, AreMovers, row_at, comes_before, is_moving, IsMovingRow, IsRatioOf};

use crate::line::{Line, Mover};
use frac_core::Exact;
use lex_rule::{Ratio, lex_less};
use loss_model::Short;

/// A row that moves, as its ratio is compared by all its entries.
fn ratio_of<'a, F: Exact>(line: &Line<F>, row: u32, coords: &'a [F]) -> Ratio<'a, F>
    requires line { IsLine F.value line.now }
    requires row { IsMovingRow F.value line.now row coords.now }
    ensures { IsRatioOf F.value line.now row result }
{
    Ratio {
        row,
        residual: line.residuals[row as usize],
        coords,
    }
}

/// Whether the ratio of one row is less than that of another, where they agree in the first entry.
fn break_tie<F: Exact>(line: &Line<F>, left: u32, right: u32) -> Result<bool, Short<F>>
    requires line { IsLine F.value line.now }
    requires left { left < length line.now.tableau.now.problem.rows }
    requires right { right < length line.now.tableau.now.problem.rows }
    requires left_moves { is_moving F.value line.now left ≡ true }
    requires right_moves { is_moving F.value line.now right ≡ true }
    requires differ { left ≢ right }
    ensures exact { IfOk result (λ less. less ≡ comes_before F.value line.now left right) }
    ensures spill { IfErr result (IsShortOf (IsLineSpill F.value F.range line.now)) }
{
    let left_coords = line.tableau.row_coordinates(left)?;
    let right_coords = line.tableau.row_coordinates(right)?;
    let first = ratio_of(line, left, left_coords.as_slice());
    let second = ratio_of(line, right, right_coords.as_slice());
    match lex_less(&first, &second, line.tableau.basis(), line.position) {
        Ok(less) => Ok(less),
        Err(spill) => Err(Short::Overflow(spill)),
    }
}

/// Whether the perturbed ratio of one mover is less than that of another. All coordinates of the rows
/// are looked at only where the first entries agree.
pub fn precedes<F: Exact>(
    line: &Line<F>,
    movers: &[Mover<F>],
    j: usize,
    k: usize,
) -> Result<bool, Short<F>>
    requires line { IsLine F.value line.now }
    requires movers { AreMovers F.value line.now movers.now }
    requires first { j < length movers.now }
    requires second { k < length movers.now }
    requires differ { j ≢ k }
    ensures exact { IfOk result (λ less. less ≡ comes_before F.value line.now (row_at movers.now j) (row_at movers.now k)) }
    ensures spill { IfErr result (IsShortOf (IsLineSpill F.value F.range line.now)) }
{
    let left = movers[j];
    let right = movers[k];
    let order = left.ratio.compare(right.ratio);
    if order.is_eq() {
        return break_tie(line, left.row, right.row);
    }
    Ok(order.is_lt())
}
