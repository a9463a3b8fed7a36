//! The next breakpoint of a walk: where a dual value of the basis first passes beyond a bound.
ghost use Rattle.std.specs.Prelude.{◌≡◌, ◌↔◌, ◌<◌, IfOk, IfErr, IsTrue, pos};
ghost use Rattle.rational_laws.specs.Fraction.{rational};
ghost use Rattle.rational_laws.specs.Rational.{◌-ℚ◌};
ghost use Rattle.loss_model.specs.Spill.{AtSome};
ghost use Rattle.basis_model.specs.declared.part.Part.TheVariants.{Constant, Linear};
ghost use Rattle.basic_solution.specs.Bases.{bound_of};
ghost use Rattle.pivot_model.specs.declared.direction.Direction.{Direction};
ghost use Rattle.pivot_model.specs.Spills.{direction_number};
ghost use Rattle.walk_model.specs.Walks.{side_towards};
ghost use Rattle.walk_model.specs.SlopeLaws.{crossing_of};
ghost use Rattle.walk_model.specs.WalkSpills.{IsMeetingSpill, IsCrossingSpill};
ghost use Rattle.fraction_tableau.specs.Views.{IsView, sample_at, rows_at, entries_at};
ghost use Rattle.tableau_model.specs.Crossings.{passes_at, IsCrossingAt, IsFirstOf};
ghost use Rattle.fraction_tableau.specs.Meetings.{Gains, gain_on, IsMeeting};

use crate::view::BasisView;
use frac_core::Exact;
use loss_model::{Quantity, Row, Site, Spill, minus_at, over_at};
use pivot_model::Direction;
use tableau_model::{Breakpoint, sooner};

/// A number that is affine in the quantile: `constant + linear * theta`.
#[derive(Clone, Copy)]
pub struct Affine<F> {
    pub constant: F,
    pub linear: F,
}

/// The bound of the dual value of a row in a direction: its up cost, or its negated down cost.
fn bound_towards<F: Exact>(chosen: &Row<F>, direction: Direction) -> Affine<F>
    ensures constant { rational (F.value result.constant) ≡ bound_of F.value chosen.now Constant (side_towards direction) }
    ensures linear { rational (F.value result.linear) ≡ bound_of F.value chosen.now Linear (side_towards direction) }
{
    match direction {
        Direction::Upward => Affine {
            constant: chosen.up0,
            linear: chosen.up1,
        },
        Direction::Downward => Affine {
            constant: chosen.down0.neg(),
            linear: chosen.down1.neg(),
        },
    }
}

/// Whether a dual value that gains so much on its bound passes beyond it.
fn passes<F: Exact>(direction: Direction, gain: F) -> bool
    ensures { IsTrue result ↔ Gains direction (rational (F.value gain)) }
{
    match direction {
        Direction::Upward => gain.compare(F::zero()).is_gt(),
        Direction::Downward => gain.compare(F::zero()).is_lt(),
    }
}

/// The number of a direction in the site of a crossing.
fn number_of(direction: Direction) -> u32
    ensures { result ≡ direction_number direction }
{
    match direction {
        Direction::Upward => 0,
        Direction::Downward => 1,
    }
}

/// Where the dual value at a position meets a bound, if it passes beyond it.
fn meeting<F: Exact>(
    position: u32,
    direction: Direction,
    bound: Affine<F>,
    dual: Affine<F>,
) -> Result<Option<Breakpoint<F>>, Spill<F>>
    ensures exact { IfOk result (IsMeeting F.value position direction bound dual) }
    ensures spill { let bound0 = rational (F.value bound.constant) in let bound1 = rational (F.value bound.linear) in
        let dual0 = rational (F.value dual.constant) in let dual1 = rational (F.value dual.linear) in
        IfErr result (IsMeetingSpill F.value F.range position direction bound0 bound1 dual0 dual1 (Gains direction (gain_on F.value bound dual))) }
{
    let site = Site::new(Quantity::Crossing, position, number_of(direction), 1);
    let gain = minus_at(Site { term: 2, ..site }, dual.linear, bound.linear)?;
    if !passes(direction, gain) {
        return Ok(None);
    }
    let gap = minus_at(site, bound.constant, dual.constant)?;
    let theta = over_at(Site { term: 3, ..site }, gap, gain)?;
    Ok(Some(Breakpoint {
        theta,
        position,
        direction,
    }))
}

impl<'a, F: Exact> BasisView<'a, F> {
    /// Where the dual value at a position first passes beyond one of its bounds.
    fn crossing_at(&self, position: u32) -> Result<Option<Breakpoint<F>>, Spill<F>>
        requires view { IsView F.value self.now }
        requires position { position < self.now.tableau.now.problem.columns }
        ensures exact { let p = sample_at F.value self.now in let at = rows_at F.value self.now in let a = entries_at F.value self.now in
            IfOk result (IsCrossingAt F.value (passes_at p at a) (crossing_of p at a) position) }
        ensures spill { let p = sample_at F.value self.now in let at = rows_at F.value self.now in let a = entries_at F.value self.now in
            IfErr result (λ s. (d : Direction) × IsCrossingSpill F.value F.range p at a position d s) }
    {
        let row = self.tableau.row_at(position);
        let chosen = &self.tableau.problem().rows.as_slice()[row as usize];
        let dual = Affine {
            constant: self.solution.constant.as_slice()[position as usize],
            linear: self.solution.linear.as_slice()[position as usize],
        };
        let above = bound_towards(chosen, Direction::Upward);
        let below = bound_towards(chosen, Direction::Downward);
        let up = meeting(position, Direction::Upward, above, dual)?;
        let down = meeting(position, Direction::Downward, below, dual)?;
        Ok(sooner(up, down))
    }

    /// The first crossing of all, at the least position of equal ones; none where no dual value passes
    /// beyond a bound.
    pub(crate) fn first_crossing(&self) -> Result<Option<Breakpoint<F>>, Spill<F>>
        requires view { IsView F.value self.now }
        ensures exact { let p = sample_at F.value self.now in let at = rows_at F.value self.now in let a = entries_at F.value self.now in
            IfOk result (IsFirstOf F.value (passes_at p at a) (crossing_of p at a) p.columns) }
        ensures spill { let p = sample_at F.value self.now in let at = rows_at F.value self.now in let a = entries_at F.value self.now in
            IfErr result (λ s. AtSome p.columns (λ j. (d : Direction) × IsCrossingSpill F.value F.range p at a j d s)) }
    {
        let mut least = None;
        for position in 0..self.tableau.columns() {
            match self.crossing_at(position) {
                Ok(next) => least = sooner(least, next),
                Err(spill) => return Err(spill),
            }
        }
        Ok(least)
    }
}
