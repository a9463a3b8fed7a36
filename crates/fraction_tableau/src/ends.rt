//! The two ends of a segment: the dual values of the basis and the loss there.
ghost use Rattle.std.specs.Prelude.{◌≡◌, ℕ, ◌<◌, length, slice_index, Contains, IfOk, IfErr};
ghost use Rattle.rational_laws.specs.Fraction.{rational};
ghost use Rattle.rational_laws.specs.Rational.{ℚ};
ghost use Rattle.loss_model.specs.Sample.{residual, loss};
ghost use Rattle.loss_model.specs.Spill.{side_cost, abs_ℚ, IsSideCostSpill};
ghost use Rattle.loss_model.specs.Quantities.{IsShortOf};
ghost use Rattle.basis_model.specs.Basis.{coefficient};
ghost use Rattle.walk_model.specs.WalkSpills.{IsSegmentEnd, IsEndSpill, IsStaySpill};
ghost use Rattle.fraction_tableau.specs.Kept.{place};
ghost use Rattle.fraction_tableau.specs.Views.{IsView, sample_at, rows_at, entries_at};
ghost use Rattle.tableau_model.specs.Standing.{IsEndAt};
ghost use Rattle.fraction_tableau.specs.Ends.{end_number, IsEndedSpill};

use crate::standing::duals_at;
use crate::view::BasisView;
use frac_core::{Exact, List};
use loss_model::{Quantity, Short, Site, Spill, plus_product, widened};
use ratio::Ratio;
use tableau_model::{EndValues, by_row};

/// Which end of a segment.
#[derive(Clone, Copy)]
pub enum End {
    Low,
    High,
}

/// What stands at both ends.
#[derive(Drop)]
pub struct Ends {
    pub low: EndValues,
    pub high: EndValues,
}

/// The price of a residual: the cost of the side on which it lies, and its size.
#[derive(Clone, Copy)]
struct SidePrice<F> {
    cost: F,
    size: F,
}

impl End {
    /// The number of the end in the site of its loss.
    fn number(self) -> u32
        ensures { result ≡ end_number self }
    {
        match self {
            End::Low => 0,
            End::High => 1,
        }
    }
}

impl<'a, F: Exact> BasisView<'a, F> {
    /// The residual of a row.
    fn residual(&self, row: u32) -> F
        requires view { IsView F.value self.now }
        requires row { row < length self.now.tableau.now.problem.rows }
        ensures { let p = sample_at F.value self.now in let b = coefficient p (rows_at F.value self.now) (entries_at F.value self.now) in
            rational (F.value result) ≡ residual p b row }
    {
        self.solution.residuals.as_slice()[row as usize]
    }

    /// The price of the residual of a row at a quantile.
    fn price(&self, row: u32, theta: F) -> Result<SidePrice<F>, Spill<F>>
        requires view { IsView F.value self.now }
        requires row { row < length self.now.tableau.now.problem.rows }
        ensures cost { let p = sample_at F.value self.now in let b = coefficient p (rows_at F.value self.now) (entries_at F.value self.now) in
            IfOk result (λ r. rational (F.value r.cost) ≡ side_cost p (rational (F.value theta)) b row) }
        ensures size { let p = sample_at F.value self.now in let b = coefficient p (rows_at F.value self.now) (entries_at F.value self.now) in
            IfOk result (λ r. rational (F.value r.size) ≡ abs_ℚ (residual p b row)) }
        ensures spill { let p = sample_at F.value self.now in let b = coefficient p (rows_at F.value self.now) (entries_at F.value self.now) in
            IfErr result (IsSideCostSpill F.value F.range p (rational (F.value theta)) b row) }
    {
        let residual = self.residual(row);
        if residual.sign() < 0 {
            let cost = self.tableau.down_cost(row, theta)?;
            let size = residual.neg();
            Ok(SidePrice { cost, size })
        } else {
            let cost = self.tableau.up_cost(row, theta)?;
            Ok(SidePrice {
                cost,
                size: residual,
            })
        }
    }

    /// The loss at an end, from the residuals.
    fn loss_at(&self, theta: F, end: End) -> Result<F, Spill<F>>
        requires view { IsView F.value self.now }
        ensures exact { let p = sample_at F.value self.now in let b = coefficient p (rows_at F.value self.now) (entries_at F.value self.now) in
            IfOk result (λ r. rational (F.value r) ≡ loss p (rational (F.value theta)) b) }
        ensures spill { let p = sample_at F.value self.now in let at = rows_at F.value self.now in let a = entries_at F.value self.now in
            IfErr result (IsEndSpill F.value F.range p at a (end_number end) (rational (F.value theta))) }
    {
        let rows = self.tableau.problem().rows.as_slice().len() as u32;
        let mut total = F::zero();
        for row in 0..rows {
            let priced = self.price(row, theta)?;
            let site = Site::new(Quantity::Loss, end.number(), 0, row);
            total = plus_product(site, total, priced.cost, priced.size)?;
        }
        Ok(total)
    }

    /// What stands at the end theta; `sorted` has the rows of the basis, ascending.
    fn end_at(&self, sorted: &[u32], theta: F, end: End) -> Result<EndValues, Short<F>>
        requires view { IsView F.value self.now }
        requires members { (k : ℕ) → k < length sorted.now → Contains self.now.tableau.now.rows (slice_index sorted.now k) }
        ensures ended { IfOk result (IsEndAt F.value (place F.value self.now.tableau.now) (rational (F.value theta)) sorted.now) }
        ensures spill { IfErr result (IsShortOf (IsEndedSpill F.value F.range self.now (rational (F.value theta)) end)) }
    {
        let solution = self.solution;
        let duals = duals_at(
            self.tableau.alloc(),
            solution.constant.as_slice(),
            solution.linear.as_slice(),
            theta,
        )?;
        let rows = self.tableau.basis().rows.as_slice();
        let values = by_row(self.tableau.alloc(), rows, sorted, duals.as_slice())?;
        let basic = widened(self.tableau.alloc(), values.as_slice())?;
        let total = self.loss_at(theta, end)?;
        let loss = Ratio::widen(self.tableau.alloc(), total)?;
        Ok(EndValues { basic, loss })
    }

    /// What stands at both ends of a segment from one quantile to another. What is refused is refused to
    /// each stay that ends there.
    pub(crate) fn ends_at(&self, sorted: &[u32], from: F, to: F) -> Result<Ends, Short<F>>
        requires view { IsView F.value self.now }
        requires members { (k : ℕ) → k < length sorted.now → Contains self.now.tableau.now.rows (slice_index sorted.now k) }
        ensures low { IfOk result (λ ends. IsEndAt F.value (place F.value self.now.tableau.now) (rational (F.value from)) sorted.now ends.low) }
        ensures high { IfOk result (λ ends. IsEndAt F.value (place F.value self.now.tableau.now) (rational (F.value to)) sorted.now ends.high) }
        ensures refused { let p = sample_at F.value self.now in let at = rows_at F.value self.now in let a = entries_at F.value self.now in
            (hi : ℚ) → IsSegmentEnd p at a (rational (F.value from)) hi (rational (F.value to))
            → IfErr result (IsShortOf (IsStaySpill F.value F.range p at a (rational (F.value from)) hi)) }
    {
        let low = self.end_at(sorted, from, End::Low)?;
        let high = self.end_at(sorted, to, End::High)?;
        Ok(Ends { low, high })
    }
}
