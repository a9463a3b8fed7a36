//! What fractions answer to a solve.
ghost use Rattle.std.specs.Prelude.{IfOk, IfErr, slice_index};
ghost use Rattle.rational_laws.specs.Fraction.{rational};
ghost use Rattle.loss_model.specs.Problem.{sample};
ghost use Rattle.pivot_model.specs.Duals.{HasCosts};
ghost use Rattle.tableau_model.specs.Questions.{solving};
ghost use Rattle.tableau_model.specs.Refusals.{IsRefusalAt, IsRefusedOf};
ghost use Rattle.tableau_model.specs.Answers.{IsOptimalAt, IsSolvingAnswer, IsFitted};
ghost use Rattle.fraction_tableau.specs.Kept.{place};
ghost use Rattle.tableau_model.specs.Standing.{Stands};

use crate::fractions::{FractionTableau, failure};
use crate::standing::Next;
use frac_core::{Exact, OutOfMemory};
use loss_model::{Basis, Vertex, widened};
use tableau_model::{Failure, Fitted, Standing, Step, ascending, by_row};

impl<'a, F: Exact> FractionTableau<'a, F> {
    /// The solving step at theta that is left, or none where no slope is negative.
    pub fn solving_step(&self, theta: F) -> Result<Option<Step>, Failure<F>>
        requires costs { HasCosts (sample F.value self.now.problem) (rational (F.value theta)) }
        ensures step { IfOk result (IsSolvingAnswer F.value (place F.value self.now) (rational (F.value theta))) }
        ensures refused { IfErr result (IsRefusedOf (IsRefusalAt F.value F.range (place F.value self.now) (solving (rational (F.value theta))))) }
    {
        match self.next(theta) {
            Ok(Next::Optimal(_)) => Ok(None),
            Ok(Next::Pivot(step)) => Ok(Some(step)),
            Err(short) => Err(failure(short)),
        }
    }

    /// The vertex of what stands at the basis, with the dual values of its rows, ascending.
    fn fit(&self, standing: Standing<F>, theta: F) -> Result<Fitted, OutOfMemory>
        requires { Stands F.value (place F.value self.now) (rational (F.value theta)) standing }
        ensures { IfOk result (IsFitted F.value (place F.value self.now) (rational (F.value theta))) }
    {
        let _theta = theta;
        let rows = self.basis().rows.as_slice();
        let sorted = ascending(self.alloc(), rows)?;
        let values = by_row(
            self.alloc(),
            rows,
            sorted.as_slice(),
            standing.duals.as_slice(),
        )?;
        let basic = widened(self.alloc(), values.as_slice())?;
        let coef = widened(self.alloc(), standing.coef.as_slice())?;
        Ok(Fitted {
            vertex: Vertex {
                basis: Basis { rows: sorted },
                sides: standing.sides,
                coef,
            },
            basic,
        })
    }

    /// The vertex of the basis, where no slope is negative, with the dual values of its rows at theta.
    pub fn vertex(&self, theta: F) -> Result<Fitted, Failure<F>>
        requires costs { HasCosts (sample F.value self.now.problem) (rational (F.value theta)) }
        requires stop { IsOptimalAt F.value (place F.value self.now) (rational (F.value theta)) }
        ensures fitted { IfOk result (IsFitted F.value (place F.value self.now) (rational (F.value theta))) }
        ensures refused { IfErr result (IsRefusedOf (IsRefusalAt F.value F.range (place F.value self.now) (solving (rational (F.value theta))))) }
    {
        match self.next(theta) {
            Ok(Next::Optimal(standing)) => match self.fit(standing, theta) {
                Ok(fitted) => Ok(fitted),
                Err(_) => Err(Failure::OutOfMemory),
            },
            Ok(Next::Pivot(_)) => unreachable!(),
            Err(short) => Err(failure(short)),
        }
    }
}
