//! The rows that move towards 0 as a position leaves.
ghost use Rattle.std.specs.Prelude.{◌≡◌, ℕ, ◌+◌, ◌<◌, length, IfOk, IfErr, OnOk, true};
ghost use Rattle.rational_laws.specs.Fraction.{rational};
ghost use Rattle.loss_model.specs.Quantities.{IsShortOf};
ghost use Rattle.loss_model.specs.Spill.{abs_ℚ};
ghost use Rattle.basis_model.specs.Perturbed.{turned as turned_on};
ghost use Rattle.pivot_model.specs.Steps.{is_towards};
ghost use Rattle.fraction_tableau.specs.Lines.{IsLine, IsLineSpill, IsMover, AreMovers, AreMoversBelow, HasSides, HasCoordinates, is_moving, side_is, coord_is};
ghost use Rattle.tableau_model.specs.Turns.{turned_by};

use crate::line::{Line, Mover};
use frac_core::Exact;
use loss_model::{Quantity, Short, Side, Site, Spill, over_at};
use pivot_model::Direction;
use std::alloc::Global;

/// The size of a value.
fn absolute<F: Exact>(value: F) -> F
    ensures { rational (F.value result) ≡ abs_ℚ (rational (F.value value)) }
{
    if value.sign() < 0 { value.neg() } else { value }
}

/// The value, negated on the side below the fit.
fn on_side<F: Exact>(side: Side, value: F) -> F
    ensures { rational (F.value result) ≡ turned_on side (rational (F.value value)) }
{
    match side {
        Side::Down => value.neg(),
        _ => value,
    }
}

/// The change that a coordinate makes in a direction.
fn change<F: Exact>(direction: Direction, coord: F) -> F
    ensures { rational (F.value result) ≡ turned_by direction (rational (F.value coord)) }
{
    match direction {
        Direction::Upward => coord,
        Direction::Downward => coord.neg(),
    }
}

/// Whether a change takes a residual on the side towards 0.
fn goes_towards<F: Exact>(side: Side, change: F) -> bool
    ensures { result ≡ is_towards side (rational (F.value change)) }
{
    match side {
        Side::Up => change.compare(F::zero()).is_lt(),
        Side::Down => change.compare(F::zero()).is_gt(),
        Side::Basic => false,
    }
}

/// A row that may move: its side, and its coordinate at the position.
#[derive(Clone, Copy)]
struct Candidate<F> {
    row: u32,
    side: Side,
    coord: F,
}

/// A row that moves, as an item of the order.
fn mover_of<F: Exact>(line: &Line<F>, candidate: Candidate<F>) -> Result<Mover<F>, Spill<F>>
    requires line { IsLine F.value line.now }
    requires row { candidate.row < length line.now.tableau.now.problem.rows }
    requires side { side_is F.value line.now candidate.row candidate.side }
    requires coord { coord_is F.value line.now candidate.row candidate.coord }
    requires moves { is_moving F.value line.now candidate.row ≡ true }
    ensures mover { IfOk result (λ m. IsMover F.value line.now m) }
    ensures row { IfOk result (λ m. m.row ≡ candidate.row) }
    ensures spill { IfErr result (IsLineSpill F.value F.range line.now) }
{
    let Candidate { row, side, coord } = candidate;
    let residual = line.residuals[row as usize];
    let size = absolute(coord);
    let site = Site::new(Quantity::PerturbedRatio, row, line.position, 1);
    let ratio = over_at(site, residual, size)?;
    Ok(Mover {
        row,
        ratio: on_side(side, ratio),
        size,
    })
}

/// Takes a row among the movers where it moves.
fn offer<F: Exact>(
    line: &Line<F>,
    found: &mut Vec<Mover<F>>,
    candidate: Candidate<F>,
) -> Result<(), Short<F>>
    requires line { IsLine F.value line.now }
    requires row { candidate.row < length line.now.tableau.now.problem.rows }
    requires side { side_is F.value line.now candidate.row candidate.side }
    requires coord { coord_is F.value line.now candidate.row candidate.coord }
    requires found { AreMoversBelow F.value line.now candidate.row found.old.items }
    ensures found { OnOk result (AreMoversBelow F.value line.now (candidate.row + 1) found.new.items) }
    ensures spill { IfErr result (IsShortOf (IsLineSpill F.value F.range line.now)) }
{
    if goes_towards(candidate.side, change(line.direction, candidate.coord)) {
        let mover = mover_of(line, candidate)?;
        match found.push(mover) {
            Ok(()) => Ok(()),
            Err(_) => Err(Short::OutOfMemory),
        }
    } else {
        Ok(())
    }
}

/// The rows that move towards 0, with their coordinates at the position.
pub fn movers<F: Exact>(
    alloc: Global,
    line: &Line<F>,
    sides: &[Side],
    coords: &[F],
) -> Result<Vec<Mover<F>>, Short<F>>
    requires line { IsLine F.value line.now }
    requires sides { HasSides F.value line.now sides.now }
    requires coords { HasCoordinates F.value line.now coords.now }
    ensures movers { IfOk result (λ found. AreMovers F.value line.now found.items) }
    ensures spill { IfErr result (IsShortOf (IsLineSpill F.value F.range line.now)) }
{
    let mut found = Vec::new(alloc);
    for row in 0..sides.len() {
        let candidate = Candidate {
            row: row as u32,
            side: sides[row],
            coord: coords[row],
        };
        offer(line, &mut found, candidate)?;
    }
    Ok(found)
}
