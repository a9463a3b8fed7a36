//! A basis in fractions: its rows, their inverse, and the exchange of one.
ghost use Rattle.std.specs.Prelude.{◌≡◌, ◌≢◌, ◌<◌, ℕ, length, slice_index, slice_set, IfOk, IfErr, OnOk, pos};
ghost use Rattle.rational_laws.specs.Fraction.{rational};
ghost use Rattle.rational_laws.specs.Rational.{whole};
ghost use Rattle.loss_model.specs.Sample.{up_cost, down_cost};
ghost use Rattle.loss_model.specs.Spill.{IsUpCostSpill, IsDownCostSpill};
ghost use Rattle.loss_model.specs.Quantities.{IsShortOf, IsCoordinatesSpill, IsExchangeSpill};
ghost use Rattle.loss_model.specs.Problem.{sample, value_at, IsWellShaped};
ghost use Rattle.loss_model.specs.Greedy.{IsGreedyBasis};
ghost use Rattle.loss_model.specs.StartStop.{IsStartStop};
ghost use Rattle.basis_inverse.specs.Square.{inverse_entry};
ghost use Rattle.basis_model.specs.Basis.{coord};
ghost use Rattle.basis_model.specs.BasisSpills.{IsBasisSpill};
ghost use Rattle.basic_solution.specs.Bases.{IsColumnSpill};
ghost use Rattle.basic_solution.specs.Solutions.{IsSolution};
ghost use Rattle.tableau_model.specs.Places.{IsPlace};
ghost use Rattle.tableau_model.specs.Questions.{Question, IsStepOf};
ghost use Rattle.tableau_model.specs.Refusals.{IsRefusalAt, IsRefusedOf};
ghost use Rattle.fraction_tableau.specs.Inverses.{IsInverseOf};
ghost use Rattle.fraction_tableau.specs.Kept.{IsKept, place};
ghost use Rattle.fraction_tableau.specs.Shorts.{IsSameShort};

use basic_solution::{BasicSolution, basic_solution, coordinates_at, row_coordinates};
use basis_inverse::{Inverse, start};
use frac_core::{Exact, List};
use loss_model::{Basis, Problem, Short, Spill, Stop, down_cost_at, up_cost_at};
use std::alloc::Global;
use std::marker::Model;
use tableau_model::{Failure, Refusal, Step};

/// A basis of a problem, and the inverse of its rows.
#[derive(Drop)]
pub struct FractionTableau<'a, F: Exact> {
    alloc: Global,
    problem: &'a Problem<F>,
    basis: Basis,
    inverse: Inverse<F>,
}

impl<'a, F: Exact> Model for FractionTableau<'a, F> {
    ghost use Rattle.fraction_tableau.specs.Kept.{Kept, IsKept};

    ghost Value = { Kept F };

    ghost view = { λ t. record { problem = t.problem.now; rows = t.basis.rows; square = t.inverse } };

    ghost invariant = { λ t. IsKept F.value (record { problem = t.problem.now; rows = t.basis.rows; square = t.inverse }) };
}

/// The refusal of an operation.
pub(crate) fn failure<F: Exact>(short: Short<F>) -> Failure<F>
    ensures { IsSameShort short result }
{
    match short {
        Short::OutOfMemory => Failure::OutOfMemory,
        Short::Overflow(spill) => Failure::Of(Refusal::Overflow(spill)),
    }
}

impl<'a, F: Exact> FractionTableau<'a, F> {
    /// The greedy start of a problem.
    pub fn begin(alloc: Global, problem: &'a Problem<F>) -> Result<FractionTableau<'a, F>, Stop<F>>
        requires shaped { IsWellShaped problem.now }
        ensures problem { IfOk result (λ t. t.problem ≡ problem.now) }
        ensures greedy { IfOk result (λ t. IsGreedyBasis (sample F.value problem.now) t.rows) }
        ensures stopped { IfErr result (IsStartStop F.value F.range problem.now) }
    {
        let started = start(alloc, problem)?;
        Ok(FractionTableau {
            alloc,
            problem,
            basis: started.basis,
            inverse: started.inverse,
        })
    }

    /// The basis of these rows, by position, with the inverse of them.
    pub fn over(
        alloc: Global,
        problem: &'a Problem<F>,
        basis: Basis,
        inverse: Inverse<F>,
    ) -> FractionTableau<'a, F>
        requires kept { IsKept F.value (record { problem = problem.now; rows = basis.rows; square = inverse }) }
        ensures { result ≡ record { problem = problem.now; rows = basis.rows; square = inverse } }
    {
        FractionTableau {
            alloc,
            problem,
            basis,
            inverse,
        }
    }

    /// Where its lists are made.
    pub fn alloc(&self) -> Global {
        self.alloc
    }

    /// The problem.
    pub fn problem(&self) -> &Problem<F>
        ensures { result.now ≡ self.now.problem }
    {
        self.problem
    }

    /// How many columns the problem has.
    pub fn columns(&self) -> u32
        ensures kept { IsKept F.value self.now }
        ensures columns { result ≡ self.now.problem.columns }
    {
        self.problem.columns
    }

    /// The rows of the basis by position.
    pub fn basis(&self) -> &Basis
        ensures kept { IsKept F.value self.now }
        ensures rows { result.now.rows ≡ self.now.rows }
    {
        &self.basis
    }

    /// The inverse of the rows of the basis.
    pub fn inverse(&self) -> &Inverse<F>
        ensures kept { IsKept F.value self.now }
        ensures inverse { result.now ≡ self.now.square }
    {
        &self.inverse
    }

    /// The row at a position.
    pub fn row_at(&self, position: u32) -> u32
        requires { position < self.now.problem.columns }
        ensures row { result ≡ slice_index self.now.rows position }
        ensures within { result < length self.now.problem.rows }
    {
        self.basis.rows.as_slice()[position as usize]
    }

    /// The up cost of a row at theta.
    pub fn up_cost(&self, row: u32, theta: F) -> Result<F, Spill<F>>
        requires { row < length self.now.problem.rows }
        ensures exact { IfOk result (λ c. rational (F.value c) ≡ up_cost (sample F.value self.now.problem) (rational (F.value theta)) row) }
        ensures spill { IfErr result (IsUpCostSpill F.value F.range (sample F.value self.now.problem) (rational (F.value theta)) row) }
    {
        up_cost_at(self.problem, row, theta)
    }

    /// The down cost of a row at theta.
    pub fn down_cost(&self, row: u32, theta: F) -> Result<F, Spill<F>>
        requires { row < length self.now.problem.rows }
        ensures exact { IfOk result (λ c. rational (F.value c) ≡ down_cost (sample F.value self.now.problem) (rational (F.value theta)) row) }
        ensures spill { IfErr result (IsDownCostSpill F.value F.range (sample F.value self.now.problem) (rational (F.value theta)) row) }
    {
        down_cost_at(self.problem, row, theta)
    }

    /// The coordinates of all rows at a position.
    pub(crate) fn coordinates_at(&self, position: u32) -> Result<List<F>, Short<F>>
        requires { position < self.now.problem.columns }
        ensures size { IfOk result (λ made. length made ≡ length self.now.problem.rows) }
        ensures each { IfOk result (λ made. (i : ℕ) → i < length self.now.problem.rows → value_at F.value made i ≡ coord (sample F.value self.now.problem) (inverse_entry F.value self.now.square) i position) }
        ensures spill { IfErr result (IsShortOf (IsColumnSpill F.value F.range (sample F.value self.now.problem) (inverse_entry F.value self.now.square) position)) }
    {
        coordinates_at(self.alloc, self.problem, &self.inverse, position)
    }

    /// The coordinates of a row at all positions.
    pub(crate) fn row_coordinates(&self, row: u32) -> Result<List<F>, Short<F>>
        requires { row < length self.now.problem.rows }
        ensures size { IfOk result (λ made. length made ≡ self.now.problem.columns) }
        ensures each { IfOk result (λ made. (j : ℕ) → j < self.now.problem.columns → value_at F.value made j ≡ coord (sample F.value self.now.problem) (inverse_entry F.value self.now.square) row j) }
        ensures spill { let p = sample F.value self.now.problem in
            IfErr result (IsShortOf (IsCoordinatesSpill F.value F.range p.columns (inverse_entry F.value self.now.square) (p.x row) row)) }
    {
        row_coordinates(self.alloc, self.problem, &self.inverse, row)
    }

    /// The basic solution.
    pub fn solution(&self) -> Result<BasicSolution<F>, Short<F>>
        ensures kept { IsKept F.value self.now }
        ensures solution { IfOk result (IsSolution F.value (sample F.value self.now.problem) (slice_index self.now.rows) (inverse_entry F.value self.now.square)) }
        ensures spill { IfErr result (IsShortOf (IsBasisSpill F.value F.range (sample F.value self.now.problem) (slice_index self.now.rows) (inverse_entry F.value self.now.square))) }
    {
        basic_solution(self.alloc, self.problem, &self.inverse, &self.basis)
    }

    /// Lets a row take a position at which its coordinate isn't 0.
    pub fn enter(&mut self, step: Step) -> Result<(), Short<F>>
        requires position { step.position < self.old.problem.columns }
        requires row { step.row < length self.old.problem.rows }
        requires some { coord (sample F.value self.old.problem) (inverse_entry F.value self.old.square) step.row step.position ≢ whole (pos 0) }
        ensures kept { OnOk result (IsKept F.value self.new) }
        ensures problem { OnOk result (self.new.problem ≡ self.old.problem) }
        ensures rows { OnOk result (self.new.rows ≡ slice_set self.old.rows step.position step.row) }
        ensures spill { let p = sample F.value self.old.problem in
            IfErr result (IsShortOf (IsExchangeSpill F.value F.range p.columns (inverse_entry F.value self.old.square) (p.x step.row) step.row step.position)) }
    {
        let x = self.problem.rows.as_slice()[step.row as usize].x.as_slice();
        match self.inverse.exchange(step.position, x, step.row) {
            Ok(()) => {}
            Err(short) => return Err(short),
        }
        self.basis.rows.replace(step.position, step.row);
        Ok(())
    }

    /// The same. What is refused is refused to each question of which this is the step.
    pub fn exchange(&mut self, step: Step) -> Result<(), Failure<F>>
        requires position { step.position < self.old.problem.columns }
        requires row { step.row < length self.old.problem.rows }
        requires some { coord (sample F.value self.old.problem) (inverse_entry F.value self.old.square) step.row step.position ≢ whole (pos 0) }
        ensures place { OnOk result (IsPlace F.value (place F.value self.new)) }
        ensures problem { OnOk result (self.new.problem ≡ self.old.problem) }
        ensures rows { OnOk result (self.new.rows ≡ slice_set self.old.rows step.position step.row) }
        ensures refused { (asked : Question) → IsStepOf F.value (place F.value self.old) asked step.position step.row → IfErr result (IsRefusedOf (IsRefusalAt F.value F.range (place F.value self.old) asked)) }
    {
        match self.enter(step) {
            Ok(()) => Ok(()),
            Err(short) => Err(failure(short)),
        }
    }

    /// The basis by position and its inverse.
    pub fn into_parts(self) -> (Basis, Inverse<F>)
        ensures { IsInverseOf F.value self.entry.problem result.0.rows result.1 × (result.0.rows ≡ self.entry.rows) × (result.1 ≡ self.entry.square) }
    {
        (self.basis, self.inverse)
    }
}
