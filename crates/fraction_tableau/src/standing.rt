//! What stands at a basis, and the step that is left there.
ghost use Rattle.std.specs.Prelude.{◌≡◌, ℕ, ◌<◌, ◌≤◌, length, slice_index, IfOk, IfErr};
ghost use Rattle.rational_laws.specs.Fraction.{rational};
ghost use Rattle.rational_laws.specs.Rational.{◌+ℚ◌, ◌*ℚ◌};
ghost use Rattle.frac_core.specs.Limits.{most_columns};
ghost use Rattle.loss_model.specs.Problem.{value_at, sample};
ghost use Rattle.loss_model.specs.Quantities.{IsShortOf};
ghost use Rattle.basis_inverse.specs.Square.{inverse_entry};
ghost use Rattle.basic_solution.specs.Solutions.{IsSolution};
ghost use Rattle.pivot_model.specs.Duals.{HasCosts};
ghost use Rattle.pivot_model.specs.Steps.{slope, IsLeaving, IsEntering};
ghost use Rattle.pivot_model.specs.Spills.{IsStepSpill};
ghost use Rattle.fraction_tableau.specs.Kept.{IsKept, place};
ghost use Rattle.fraction_tableau.specs.Next.{IsNext, IsDualFault};
ghost use Rattle.fraction_tableau.specs.Slopes.{IsLeavingAt};
ghost use Rattle.tableau_model.specs.Standing.{AreDuals};

use crate::fractions::FractionTableau;
use crate::line::Line;
use crate::movers::movers;
use crate::search::entering;
use crate::slopes::Slopes;
use basic_solution::{BasicSolution, dual_value};
use frac_core::{Exact, List};
use loss_model::{Short, Spill};
use std::alloc::Global;
use tableau_model::{Leaving, Standing, Step};

/// What is left to do at a basis: nothing, or the solving step.
#[derive(Drop)]
pub enum Next<F> {
    Optimal(Standing<F>),
    Pivot(Step),
}

/// The dual values at theta by position, from their two parts.
pub fn duals_at<F: Exact>(
    alloc: Global,
    constant: &[F],
    linear: &[F],
    theta: F,
) -> Result<List<F>, Short<F>>
    requires same { length linear.now ≡ length constant.now }
    requires few { length constant.now ≤ most_columns }
    ensures size { IfOk result (λ made. length made ≡ length constant.now) }
    ensures each { IfOk result (λ made. (j : ℕ) → j < length constant.now → value_at F.value made j ≡ value_at F.value constant.now j +ℚ (value_at F.value linear.now j *ℚ rational (F.value theta))) }
    ensures spill { IfErr result (IsShortOf (IsDualFault F.value F.range (length constant.now) (value_at F.value constant.now) (value_at F.value linear.now) (rational (F.value theta)))) }
{
    let mut made = List::new(alloc);
    for position in 0..constant.len() {
        made.add(dual_value(position as u32, constant[position], linear[position], theta)?)?;
    }
    Ok(made)
}

impl<'a, F: Exact> FractionTableau<'a, F> {
    /// The position that leaves at theta, by the dual values there.
    fn leaving(&self, duals: &[F], theta: F) -> Result<Option<Leaving<F>>, Spill<F>>
        requires kept { IsKept F.value self.now }
        requires duals { AreDuals F.value (place F.value self.now) F.value (rational (F.value theta)) duals.now }
        ensures leaving { IfOk result (IsLeavingAt F.value (sample F.value self.now.problem) (slice_index self.now.rows) (inverse_entry F.value self.now.square) (rational (F.value theta))) }
        ensures spill { IfErr result (IsStepSpill F.value F.range (sample F.value self.now.problem) (slice_index self.now.rows) (inverse_entry F.value self.now.square) (rational (F.value theta))) }
    {
        let slopes = Slopes {
            tableau: self,
            duals,
            theta,
        };
        slopes.steepest()
    }

    /// The row that enters where the position leaves.
    fn entering_row(
        &self,
        solution: &BasicSolution<F>,
        theta: F,
        leave: Leaving<F>,
    ) -> Result<u32, Short<F>>
        requires kept { IsKept F.value self.now }
        requires costs { HasCosts (sample F.value self.now.problem) (rational (F.value theta)) }
        requires solution { IsSolution F.value (sample F.value self.now.problem) (slice_index self.now.rows) (inverse_entry F.value self.now.square) solution.now }
        requires leaving { IsLeaving (sample F.value self.now.problem) (slice_index self.now.rows) (inverse_entry F.value self.now.square) (rational (F.value theta)) leave.position leave.direction }
        requires slope { rational (F.value leave.slope) ≡ slope (sample F.value self.now.problem) (slice_index self.now.rows) (inverse_entry F.value self.now.square) (rational (F.value theta)) leave.position leave.direction }
        ensures enters { IfOk result (IsEntering (sample F.value self.now.problem) (slice_index self.now.rows) (inverse_entry F.value self.now.square) (rational (F.value theta)) leave.position leave.direction) }
        ensures spill { IfErr result (IsShortOf (IsStepSpill F.value F.range (sample F.value self.now.problem) (slice_index self.now.rows) (inverse_entry F.value self.now.square) (rational (F.value theta)))) }
    {
        let line = Line {
            tableau: self,
            residuals: solution.residuals.as_slice(),
            theta,
            position: leave.position,
            direction: leave.direction,
        };
        let coords = self.coordinates_at(leave.position)?;
        let mut heap = movers(
            self.alloc(),
            &line,
            solution.sides.as_slice(),
            coords.as_slice(),
        )?;
        entering(&line, heap.as_mut_slice(), leave.slope)
    }

    /// The step that is left at theta, or what stands at the basis where none is.
    pub(crate) fn next(&self, theta: F) -> Result<Next<F>, Short<F>>
        requires costs { HasCosts (sample F.value self.now.problem) (rational (F.value theta)) }
        ensures next { IfOk result (IsNext F.value (place F.value self.now) (rational (F.value theta))) }
        ensures spilled { IfErr result (IsShortOf (IsStepSpill F.value F.range (sample F.value self.now.problem) (slice_index self.now.rows) (inverse_entry F.value self.now.square) (rational (F.value theta)))) }
    {
        let solution = self.solution()?;
        let duals = duals_at(
            self.alloc(),
            solution.constant.as_slice(),
            solution.linear.as_slice(),
            theta,
        )?;
        match self.leaving(duals.as_slice(), theta) {
            Ok(None) => Ok(Next::Optimal(Standing {
                coef: solution.coef,
                sides: solution.sides,
                duals,
            })),
            Ok(Some(leave)) => {
                let row = self.entering_row(&solution, theta, leave)?;
                let position = leave.position;
                Ok(Next::Pivot(Step { position, row }))
            }
            Err(spill) => Err(Short::Overflow(spill)),
        }
    }
}
