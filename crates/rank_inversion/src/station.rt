//! A basis on a walk, and the next breakpoint there.
ghost use Rattle.std.specs.Prelude.{◌≡◌, ◌<◌, Bool, ℕ, length, IfOk, IfErr};
ghost use Rattle.rational_laws.specs.Fraction.{rational};
ghost use Rattle.rational_laws.specs.Rational.{ℚ};
ghost use Rattle.loss_model.specs.Spill.{AtSome};
ghost use Rattle.pivot_model.specs.Spills.{direction_number, IsCostSpill};
ghost use Rattle.walk_model.specs.Families.{IsOptimalIn};
ghost use Rattle.walk_model.specs.Walks.{IsNextBreak};
ghost use Rattle.tableau_model.specs.Crossings.{IsCrossingAt, IsFirstOf};
ghost use Rattle.rank_walk_model.specs.Crossings.{bound_towards};
ghost use Rattle.rank_steps.specs.Ways.{way_of, direction_for, IsDirectionBy};
ghost use Rattle.rank_inversion.specs.Courses.{tau_of, parameter_at, family_of, Moves, crossing_at};
ghost use Rattle.rank_inversion.specs.Stations.{IsStation, sample_at, rows_at, entries_at, IsMeetingSpill};

use crate::course::Course;
use basic_solution::BasicSolution;
use frac_core::{Exact, List};
use fraction_tableau::FractionTableau;
use loss_model::{Quantity, Site, Spill, minus_at, over_at};
use pivot_model::Direction;
use rank_steps::{Way, direction_of};
use tableau_model::{Breakpoint, sooner};

/// A basis on a walk, its basic solution, and its dual values at the quantile of the walk, by position.
#[derive(Drop)]
pub struct Station<'a, F: Exact> {
    pub tableau: &'a FractionTableau<'a, F>,
    pub solution: BasicSolution<F>,
    pub duals: List<F>,
    pub course: Course<F>,
}

/// The direction in which a dual value moves by the inverse's entry of the column, if it moves.
fn direction_by<F: Exact>(way: Way, entry: F) -> Option<Direction>
    ensures { IsDirectionBy (way_of way) (rational (F.value entry)) result }
{
    let order = entry.compare(F::zero());
    if order.is_eq() {
        return None;
    }
    Some(direction_of(way, order.is_gt()))
}

/// The number of a direction in the site of a crossing.
fn number_of(direction: Direction) -> u32
    ensures { result ≡ direction_number direction }
{
    match direction {
        Direction::Upward => 0,
        Direction::Downward => 1,
    }
}

impl<'a, F: Exact> Station<'a, F> {
    /// The bound of the dual value of a row in a direction.
    fn bound_at(&self, row: u32, direction: Direction) -> Result<F, Spill<F>>
        requires row { row < length self.now.tableau.now.problem.rows }
        ensures exact { IfOk result (λ b. rational (F.value b) ≡ bound_towards (sample_at F.value self.now) (tau_of F.value self.now.course) row direction) }
        ensures spill { IfErr result (IsCostSpill F.value F.range (sample_at F.value self.now) (rows_at F.value self.now) (entries_at F.value self.now) (tau_of F.value self.now.course) row) }
    {
        match direction {
            Direction::Upward => {
                let cost = self.tableau.up_cost(row, self.course.tau)?;
                Ok(cost)
            }
            Direction::Downward => {
                let cost = self.tableau.down_cost(row, self.course.tau)?;
                Ok(cost.neg())
            }
        }
    }

    /// Where the dual value at a position meets the bound towards which it moves.
    fn meeting(&self, position: u32, direction: Direction, entry: F) -> Result<F, Spill<F>>
        requires station { IsStation F.value self.now }
        requires position { position < self.now.tableau.now.problem.columns }
        requires entry { rational (F.value entry) ≡ entries_at F.value self.now self.now.course.column position }
        requires moves { Moves F.value self.now.course (entries_at F.value self.now) position direction }
        ensures exact { IfOk result (λ t. rational (F.value t) ≡ crossing_at F.value (sample_at F.value self.now) (rows_at F.value self.now) (entries_at F.value self.now) self.now.course position direction) }
        ensures spill { IfErr result (IsMeetingSpill F.value F.range self.now position) }
    {
        let bound = self.bound_at(self.tableau.row_at(position), direction)?;
        let site = Site::new(Quantity::Crossing, position, number_of(direction), 1);
        let gap = minus_at(site, bound, self.duals.as_slice()[position as usize])?;
        let weight = over_at(Site { term: 3, ..site }, gap, entry)?;
        Ok(self.course.way.turned(weight))
    }

    /// Where the dual value at a position meets its bound, if it moves.
    fn crossing(&self, position: u32) -> Result<Option<Breakpoint<F>>, Spill<F>>
        requires station { IsStation F.value self.now }
        requires position { position < self.now.tableau.now.problem.columns }
        ensures exact { let p = sample_at F.value self.now in let at = rows_at F.value self.now in let a = entries_at F.value self.now in
            IfOk result (IsCrossingAt F.value (Moves F.value self.now.course a) (crossing_at F.value p at a self.now.course) position) }
        ensures spill { IfErr result (IsMeetingSpill F.value F.range self.now position) }
    {
        let entry = self.tableau.inverse().entry(self.course.column, position);
        match direction_by(self.course.way, entry) {
            None => Ok(None),
            Some(direction) => {
                let theta = self.meeting(position, direction, entry)?;
                Ok(Some(Breakpoint {
                    theta,
                    position,
                    direction,
                }))
            }
        }
    }

    /// The first of all crossings, at the least position of equal ones.
    fn first_crossing(&self) -> Result<Option<Breakpoint<F>>, Spill<F>>
        requires station { IsStation F.value self.now }
        ensures exact { let p = sample_at F.value self.now in let at = rows_at F.value self.now in let a = entries_at F.value self.now in
            IfOk result (IsFirstOf F.value (Moves F.value self.now.course a) (crossing_at F.value p at a self.now.course) p.columns) }
        ensures spill { IfErr result (λ s. AtSome self.now.tableau.now.problem.columns (λ j. IsMeetingSpill F.value F.range self.now j s)) }
    {
        let mut least = None;
        for position in 0..self.tableau.columns() {
            match self.crossing(position) {
                Ok(next) => least = sooner(least, next),
                Err(spill) => return Err(spill),
            }
        }
        Ok(least)
    }

    /// The next breakpoint from where the column weighs so much; there always is one.
    pub fn next_break(&self, from: F) -> Result<Breakpoint<F>, Spill<F>>
        requires station { IsStation F.value self.now }
        requires optimal { IsOptimalIn (family_of F.value (sample_at F.value self.now) self.now.course) (rows_at F.value self.now) (entries_at F.value self.now) (parameter_at F.value self.now.course from) }
        ensures exact { let f = family_of F.value (sample_at F.value self.now) self.now.course in
            IfOk result (λ b. IsNextBreak f (rows_at F.value self.now) (entries_at F.value self.now) (parameter_at F.value self.now.course from) (rational (F.value b.theta)) b.position b.direction) }
        ensures spill { IfErr result (λ s. AtSome self.now.tableau.now.problem.columns (λ j. IsMeetingSpill F.value F.range self.now j s)) }
    {
        let _from = from;
        match self.first_crossing() {
            Ok(Some(next)) => Ok(next),
            Ok(None) => unreachable!(),
            Err(spill) => Err(spill),
        }
    }
}
