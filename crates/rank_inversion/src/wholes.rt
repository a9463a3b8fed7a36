//! Rank intervals in whole numbers.
//!
//! Nothing is said of what is refused: whoever asks goes on in fractions, which name the cause.
ghost use Rattle.std.specs.Prelude.{IfSome};
ghost use Rattle.rational_laws.specs.Fraction.{rational};
ghost use Rattle.loss_model.specs.Problem.{sample, IsWellShaped};
ghost use Rattle.pivot_model.specs.Duals.{HasCosts};
ghost use Rattle.whole_tableau.specs.Kept.{IsSetting};
ghost use Rattle.rank_inversion.specs.Intervals.{IsRankInterval};
ghost use Rattle.rank_inversion.specs.Inversions.{IsAskable};
ghost use Rattle.rank_inversion.specs.Wholes.{IsStarted, AreSidesOf};

use crate::column_test::Asked;
use crate::trails::joined;
use br_pivot::{Reached, reach_in_wholes};
use frac_core::{Exact, List};
use gram_check::whole_gram;
use loss_model::{Interval, Problem};
use rank_tableau::{BothSides, Question, both_sides};
use ratio::Integer;
use std::alloc::Global;
use whole_tableau::Setting;

/// What the intervals of all columns at a quantile begin with: the solved basis in whole numbers, and the Gram
/// matrix of its rows.
#[derive(Drop)]
pub struct Started<'a, F: Exact> {
    pub reached: Reached<'a, F>,
    pub gram: List<List<Integer>>,
}

/// Solves at tau in whole numbers, and makes the Gram matrix.
pub fn start_in_wholes<'a, F: Exact>(
    alloc: Global,
    problem: &'a Problem<F>,
    setting: &'a Setting,
    tau: F,
    limit: u32,
) -> Option<Started<'a, F>>
    requires shaped { IsWellShaped problem.now }
    requires setting { IsSetting F.value problem.now setting.now }
    requires costs { HasCosts (sample F.value problem.now) (rational (F.value tau)) }
    ensures { IfSome result (IsStarted F.value problem.now (rational (F.value tau)) limit) }
{
    let reached = reach_in_wholes(alloc, problem, setting, tau, limit)?;
    let rows = reached.tableau.setting().wholes.rows.as_slice();
    match whole_gram(alloc, rows, reached.tableau.problem().columns) {
        Ok(gram) => Some(Started { reached, gram }),
        Err(_) => {
            drop(reached);
            None
        }
    }
}

impl<'a, F: Exact> Started<'a, F> {
    /// Both walks of a column, within what the solve leaves of the limit.
    fn sides(&self, alloc: Global, asked: Asked<F>, limit: u32) -> Option<BothSides>
        requires started { IsStarted F.value self.now.reached.tableau.problem (rational (F.value asked.tau)) limit self.now }
        requires asked { IsAskable F.value self.now.reached.tableau.problem asked }
        ensures { IfSome result (AreSidesOf F.value self.now asked limit) }
    {
        let made = self.reached.trail.steps.as_slice().len() as u32;
        let question = Question {
            column: asked.column,
            tau: asked.tau,
            crit: asked.crit,
        };
        let gram = self.gram.as_slice();
        match both_sides(alloc, &self.reached.tableau, gram, &question, limit - made) {
            Ok(sides) => Some(sides),
            Err(_) => None,
        }
    }

    /// The interval of a column, from the solve at its quantile.
    pub fn interval(&self, alloc: Global, asked: Asked<F>, limit: u32) -> Option<Interval>
        requires started { IsStarted F.value self.now.reached.tableau.problem (rational (F.value asked.tau)) limit self.now }
        requires asked { IsAskable F.value self.now.reached.tableau.problem asked }
        ensures { IfSome result (IsRankInterval F.value self.now.reached.tableau.problem asked.column asked.tau asked.crit limit) }
    {
        let sides = self.sides(alloc, asked, limit)?;
        let BothSides {
            factors,
            rise,
            fall,
        } = sides;
        match joined(alloc, &self.reached.trail, asked, factors, rise, fall) {
            Ok(interval) => Some(interval),
            Err(_) => None,
        }
    }
}
