//! All that stands at a basis, together.
ghost use Rattle.std.specs.Prelude.{◌≡◌, ◌⊎◌, ℕ, ◌<◌, ◌≤◌, false, All, length, slice_index, IfOk, IfSome, IsTrue};
ghost use Rattle.rational_laws.specs.Selections.{is_among};
ghost use Rattle.loss_model.specs.Sample.{residual};
ghost use Rattle.loss_model.specs.declared.vertex.Side.TheVariants.{Basic};
ghost use Rattle.basis_model.specs.Basis.{coefficient, side_at};
ghost use Rattle.whole_inverse.specs.Shares.{share, share_at};
ghost use Rattle.whole_inverse.specs.Squares.{inverse_of};
ghost use Rattle.whole_rows.specs.Wholes.{sample_of_rows};
ghost use Rattle.loss_model.specs.Sides.{side_in};
ghost use Rattle.whole_solution.specs.Standing.{both_of, AreDualNumbers, AreResiduals, HasWeights, IsNearby, IsPast, IsSided, IsWholeBasis, IsWholeSolution};
ghost use Rattle.whole_solution.specs.Columns.{IsColumn};
ghost use Rattle.whole_solution.specs.Far.{IsListed};
ghost use Rattle.whole_solution.specs.Ranges.{AreRanges};
ghost use Rattle.whole_solution.specs.Weighing.{AreWeights};

use crate::basis::WholeBasis;
use crate::column::Column;
use crate::duals::balancing_numbers;
use crate::near::{Choice, Near, solving_distance, walking_distance};
use crate::primal::{coefficients, residual_of, residuals};
use crate::products::row_products;
use crate::ranges::Ranges;
use crate::sides::basic_sides;
use crate::totals::{Turn, Weights};
use frac_core::List;
use loss_model::Side;
use std::alloc::Global;
use whole_inverse::{Obstacle, WholeInverse};

/// What stands at a basis: the coefficients by column, the sides by row, the rows near the fit, what the rows weigh on their
/// sides, and the two parts of the dual values by position, which at theta are `constant + linear * theta`. Numbers are
/// numerators over the determinant, but for the weights, which are whole.
#[derive(Drop)]
pub struct WholeSolution {
    pub coef: List<i128>,
    pub sides: List<Side>,
    pub near: Near,
    pub weights: Weights<i128>,
    pub residuals: Option<List<i128>>,
    pub constant: List<i128>,
    pub linear: List<i128>,
}

/// The same without the dual values.
#[derive(Drop)]
pub struct Sided {
    pub coef: List<i128>,
    pub sides: List<Side>,
    pub near: Near,
    pub weights: Weights<i128>,
    pub residuals: Option<List<i128>>,
}

/// The two parts of the dual values by position, as numerators over the determinant.
#[derive(Drop)]
struct DualNumbers {
    pub constant: List<i128>,
    pub linear: List<i128>,
}

/// The sides of all rows, and what these weigh on them.
#[derive(Drop)]
pub struct Turned {
    pub sides: List<Side>,
    pub weights: Weights<i128>,
}

/// The rows near the fit, and the residuals of all rows where these were made to choose them.
#[derive(Drop)]
struct Nearby {
    pub near: Near,
    pub residuals: Option<List<i128>>,
}

/// The rows that have entered a basis and left it, where two bases of a walk meet.
#[derive(Clone, Copy)]
pub struct Joint {
    pub entered: u32,
    pub left: u32,
}

impl<'a> WholeBasis<'a, i64, WholeInverse> {
    /// The numerators of the coefficients.
    fn coefficients(&self, alloc: Global) -> Result<List<i128>, Obstacle>
        requires basis { IsWholeBasis self.now }
        ensures size { IfOk result (λ made. length made ≡ length self.now.inverse.now.columns) }
        ensures each { let s = self.now.inverse.now in let p = sample_of_rows (length s.columns) self.now.rows.now in let at = slice_index self.now.basis.now.rows in
            IfOk result (λ made. (k : ℕ) → k < p.columns → share_at s.determinant made k ≡ coefficient p at (inverse_of s) k) }
    {
        let n = self.basis.rows.as_slice().len() as u32;
        coefficients(alloc, self.inverse, self.rows, self.basis, n)
    }

    /// The numerator of the residual of a row; where `NARROW`, by coefficients whose products are known to have 63 bits alone.
    #[inline]
    pub fn residual_at<const NARROW: bool>(&self, coef: &Column, row: u32) -> Result<i128, Obstacle>
        requires basis { IsWholeBasis self.now }
        requires column { IsColumn coef.now.numbers.now self.now.limit coef.now }
        requires size { length coef.now.numbers.now ≡ length self.now.inverse.now.columns }
        requires row { row < length self.now.rows.now }
        ensures { let s = self.now.inverse.now in let p = sample_of_rows (length s.columns) self.now.rows.now in
            IfOk result (λ n. share n s.determinant ≡ residual p (share_at s.determinant coef.now.numbers.now) row) }
    {
        let rows = self.rows;
        let chosen = &rows[row as usize];
        match coef.product_in::<NARROW>(chosen.x.as_slice()) {
            Some(fit) => residual_of(chosen.y, fit, self.inverse.determinant()),
            None => Err(Obstacle::TooWide),
        }
    }

    /// The residuals of all rows.
    pub fn residuals(&self, alloc: Global, coef: &[i128]) -> Result<List<i128>, Obstacle>
        requires basis { IsWholeBasis self.now }
        requires size { length coef.now ≡ length self.now.inverse.now.columns }
        ensures size { IfOk result (λ made. length made ≡ length self.now.rows.now) }
        ensures each { let s = self.now.inverse.now in let p = sample_of_rows (length s.columns) self.now.rows.now in
            IfOk result (λ made. (i : ℕ) → i < p.rows → share_at s.determinant made i ≡ residual p (share_at s.determinant coef.now) i) }
    {
        let fits = row_products(alloc, self.rows, coef, self.limit)?;
        residuals(
            alloc,
            self.rows,
            fits.as_slice(),
            self.inverse.determinant(),
        )
    }

    /// The residuals of all rows at the basis, of which a copy is made where what stands there has them.
    pub fn all_residuals(
        &self,
        alloc: Global,
        solution: &WholeSolution,
    ) -> Result<List<i128>, Obstacle>
        requires basis { IsWholeBasis self.now }
        requires solution { let s = self.now.inverse.now in let p = sample_of_rows (length s.columns) self.now.rows.now in let at = slice_index self.now.basis.now.rows in
            IsWholeSolution p at (inverse_of s) s.determinant solution.now }
        ensures { let s = self.now.inverse.now in let p = sample_of_rows (length s.columns) self.now.rows.now in let at = slice_index self.now.basis.now.rows in
            IfOk result (AreResiduals p at (inverse_of s) s.determinant) }
    {
        match &solution.residuals {
            Some(kept) => {
                let copy = List::copy(alloc, kept.as_slice())?;
                Ok(copy)
            }
            None => {
                let made = self.residuals(alloc, solution.coef.as_slice())?;
                Ok(made)
            }
        }
    }

    /// The rows near this fit, by the residuals of all rows on their sides.
    fn choose_near(
        &self,
        alloc: Global,
        residuals: List<i128>,
        coef: &[i128],
        sides: &[Side],
        choice: Choice,
    ) -> Result<Nearby, Obstacle>
        requires basis { IsWholeBasis self.now }
        requires all { length residuals ≡ length self.now.rows.now }
        requires residuals { let s = self.now.inverse.now in let p = sample_of_rows (length s.columns) self.now.rows.now in
            (i : ℕ) → i < p.rows → share_at s.determinant residuals i ≡ residual p (share_at s.determinant coef.now) i }
        requires size { length coef.now ≡ length self.now.inverse.now.columns }
        requires each { let s = self.now.inverse.now in let p = sample_of_rows (length s.columns) self.now.rows.now in let at = slice_index self.now.basis.now.rows in
            (k : ℕ) → k < p.columns → share_at s.determinant coef.now k ≡ coefficient p at (inverse_of s) k }
        requires sides { length sides.now ≡ length self.now.rows.now }
        requires distance { 1 ≤ choice.distance }
        requires ranges { AreRanges (sample_of_rows (length self.now.inverse.now.columns) self.now.rows.now) choice.ranges }
        ensures { let s = self.now.inverse.now in let p = sample_of_rows (length s.columns) self.now.rows.now in let at = slice_index self.now.basis.now.rows in
            IfOk result (IsNearby p at (inverse_of s) s.determinant (side_in sides.now)) }
    {
        let near = Near::chosen(
            alloc,
            residuals.as_slice(),
            sides,
            coef,
            self.inverse.determinant(),
            choice,
        )?;
        Ok(Nearby {
            near,
            residuals: Some(residuals),
        })
    }

    /// The sides of all rows by their residuals, and what these weigh.
    fn sided(
        &self,
        alloc: Global,
        coef: List<i128>,
        ranges: Ranges,
        old: &[Side],
        before: &Weights<i128>,
    ) -> Result<Sided, Obstacle>
        requires basis { IsWholeBasis self.now }
        requires size { length coef ≡ length self.now.inverse.now.columns }
        requires each { let s = self.now.inverse.now in let p = sample_of_rows (length s.columns) self.now.rows.now in let at = slice_index self.now.basis.now.rows in
            (k : ℕ) → k < p.columns → share_at s.determinant coef k ≡ coefficient p at (inverse_of s) k }
        requires ranges { AreRanges (sample_of_rows (length self.now.inverse.now.columns) self.now.rows.now) ranges }
        requires old { length old.now ≡ length self.now.rows.now }
        requires before { AreWeights (sample_of_rows (length self.now.inverse.now.columns) self.now.rows.now) (side_in old.now) before.now }
        ensures { let s = self.now.inverse.now in let p = sample_of_rows (length s.columns) self.now.rows.now in let at = slice_index self.now.basis.now.rows in
            IfOk result (IsSided p at (inverse_of s) s.determinant) }
    {
        let residuals = self.residuals(alloc, coef.as_slice())?;
        let sides = self.sides(alloc, residuals.as_slice())?;
        let weights = before.after(alloc, self.rows, old, sides.as_slice())?;
        let distance = solving_distance(
            alloc,
            residuals.as_slice(),
            &ranges,
            old,
            sides.as_slice(),
        )?;
        let choice = Choice { distance, ranges };
        let nearby = self.choose_near(alloc, residuals, coef.as_slice(), sides.as_slice(), choice)?;
        Ok(Sided {
            coef,
            sides,
            near: nearby.near,
            weights,
            residuals: nearby.residuals,
        })
    }

    /// The side of a listed row at this basis, where it is outside this.
    fn listed_side(&self, coef: &Column, row: u32) -> Result<Side, Obstacle>
        requires basis { IsWholeBasis self.now }
        requires column { IsColumn coef.now.numbers.now self.now.limit coef.now }
        requires size { length coef.now.numbers.now ≡ length self.now.inverse.now.columns }
        requires each { let s = self.now.inverse.now in let p = sample_of_rows (length s.columns) self.now.rows.now in let at = slice_index self.now.basis.now.rows in
            (k : ℕ) → k < p.columns → share_at s.determinant coef.now.numbers.now k ≡ coefficient p at (inverse_of s) k }
        requires row { row < length self.now.rows.now }
        ensures { let s = self.now.inverse.now in let p = sample_of_rows (length s.columns) self.now.rows.now in let at = slice_index self.now.basis.now.rows in
            IfOk result (λ o. is_among at p.columns row ≡ false → o ≡ side_at p at (inverse_of s) row) }
    {
        let number = self.residual_at::<false>(coef, row)?;
        let side = self.free_side(row, number)?;
        Ok(side)
    }

    /// The sides of the listed rows at this basis beside the earlier ones of all others, and what rows weigh on these.
    fn listed_sides(
        &self,
        alloc: Global,
        coef: &[i128],
        old: &[Side],
        before: &Weights<i128>,
        listed: &[u32],
    ) -> Result<Turned, Obstacle>
        requires basis { IsWholeBasis self.now }
        requires size { length coef.now ≡ length self.now.inverse.now.columns }
        requires each { let s = self.now.inverse.now in let p = sample_of_rows (length s.columns) self.now.rows.now in let at = slice_index self.now.basis.now.rows in
            (k : ℕ) → k < p.columns → share_at s.determinant coef.now k ≡ coefficient p at (inverse_of s) k }
        requires old { length old.now ≡ length self.now.rows.now }
        requires before { AreWeights (sample_of_rows (length self.now.inverse.now.columns) self.now.rows.now) (side_in old.now) before.now }
        requires listed { All (λ i. i < length self.now.rows.now) listed.now }
        ensures size { IfOk result (λ made. length made.sides ≡ length self.now.rows.now) }
        ensures each { IfOk result (λ made. (i : ℕ) → IsListed listed.now i ⊎ (side_in made.sides i ≡ side_in old.now i)) }
        ensures listed { let s = self.now.inverse.now in let p = sample_of_rows (length s.columns) self.now.rows.now in let at = slice_index self.now.basis.now.rows in
            IfOk result (λ made. (i : ℕ) → IsListed listed.now i → is_among at p.columns i ≡ false → side_in made.sides i ≡ side_at p at (inverse_of s) i) }
        ensures weights { IfOk result (λ made. AreWeights (sample_of_rows (length self.now.inverse.now.columns) self.now.rows.now) (side_in made.sides) made.weights) }
    {
        let rows = self.rows;
        let coef = Column::of(coef, self.limit);
        let mut sides = List::copy(alloc, old)?;
        let mut weights = before.copy(alloc)?;
        for k in 0..listed.len() {
            let row = listed[k];
            let chosen = &rows[row as usize];
            let from = sides.as_slice()[row as usize];
            let side = self.listed_side(&coef, row)?;
            let turn = Turn { from, to: side };
            sides.replace(row, side);
            if !turn.stays() {
                weights.turn(chosen, turn)?;
            }
        }
        Ok(Turned { sides, weights })
    }

    /// Whether the rows of the basis are on no side.
    fn holds_basis(&self, sides: &[Side]) -> bool
        requires basis { IsWholeBasis self.now }
        requires size { length sides.now ≡ length self.now.rows.now }
        ensures { IsTrue result → (j : ℕ) → j < length self.now.basis.now.rows → side_in sides.now (slice_index self.now.basis.now.rows j) ≡ Basic }
    {
        let basis = self.basis.rows.as_slice();
        for j in 0..basis.len() {
            if sides[basis[j] as usize] != Side::Basic {
                return false;
            }
        }
        true
    }

    /// The same as `sided`, from what stood at another basis.
    fn sided_anew(
        &self,
        alloc: Global,
        coef: List<i128>,
        before: &WholeSolution,
    ) -> Result<Sided, Obstacle>
        requires basis { IsWholeBasis self.now }
        requires size { length coef ≡ length self.now.inverse.now.columns }
        requires each { let s = self.now.inverse.now in let p = sample_of_rows (length s.columns) self.now.rows.now in let at = slice_index self.now.basis.now.rows in
            (k : ℕ) → k < p.columns → share_at s.determinant coef k ≡ coefficient p at (inverse_of s) k }
        requires before { HasWeights (sample_of_rows (length self.now.inverse.now.columns) self.now.rows.now) before.now }
        ensures { let s = self.now.inverse.now in let p = sample_of_rows (length s.columns) self.now.rows.now in let at = slice_index self.now.basis.now.rows in
            IfOk result (IsSided p at (inverse_of s) s.determinant) }
    {
        let ranges = before.near.ranges.copy(alloc)?;
        self.sided(
            alloc,
            coef,
            ranges,
            before.sides.as_slice(),
            &before.weights,
        )
    }

    /// The rows near the fit past a joint. The earlier ones serve while no far row can have come near, if the row that has entered is
    /// among them: it is on no side any more, and so not far.
    fn near_past(
        &self,
        alloc: Global,
        before: &WholeSolution,
        met: Joint,
        coef: &[i128],
        sides: &[Side],
    ) -> Result<Nearby, Obstacle>
        requires basis { IsWholeBasis self.now }
        requires before { HasWeights (sample_of_rows (length self.now.inverse.now.columns) self.now.rows.now) before.now }
        requires past { let s = self.now.inverse.now in let p = sample_of_rows (length s.columns) self.now.rows.now in let at = slice_index self.now.basis.now.rows in
            IsPast p at (inverse_of s) (side_in before.now.sides) met }
        requires size { length coef.now ≡ length self.now.inverse.now.columns }
        requires each { let s = self.now.inverse.now in let p = sample_of_rows (length s.columns) self.now.rows.now in let at = slice_index self.now.basis.now.rows in
            (k : ℕ) → k < p.columns → share_at s.determinant coef.now k ≡ coefficient p at (inverse_of s) k }
        requires sides { length sides.now ≡ length self.now.rows.now }
        requires kept { (i : ℕ) → IsListed (both_of met) i ⊎ (side_in sides.now i ≡ side_in before.now.sides i) }
        ensures { let s = self.now.inverse.now in let p = sample_of_rows (length s.columns) self.now.rows.now in let at = slice_index self.now.basis.now.rows in
            IfOk result (IsNearby p at (inverse_of s) s.determinant (side_in sides.now)) }
    {
        if before.near.holds(met.entered) {
            if let Some(reach) = before.near.reach_left(coef, self.inverse.determinant()) {
                let near = before.near.with_reach(alloc, reach)?;
                return Ok(Nearby {
                    near,
                    residuals: None,
                });
            }
        }
        let residuals = self.residuals(alloc, coef)?;
        let choice = Choice {
            distance: walking_distance(alloc, residuals.as_slice(), &before.near.ranges)?,
            ranges: before.near.ranges.copy(alloc)?,
        };
        self.choose_near(alloc, residuals, coef, sides, choice)
    }

    /// The same as `sided`, past a joint of a walk: all rows but both of its own keep their sides, also where the near rows are to be
    /// chosen anew.
    fn sided_past_joint(
        &self,
        alloc: Global,
        before: &WholeSolution,
        met: Joint,
    ) -> Result<Sided, Obstacle>
        requires basis { IsWholeBasis self.now }
        requires before { HasWeights (sample_of_rows (length self.now.inverse.now.columns) self.now.rows.now) before.now }
        requires past { let s = self.now.inverse.now in let p = sample_of_rows (length s.columns) self.now.rows.now in let at = slice_index self.now.basis.now.rows in
            IsPast p at (inverse_of s) (side_in before.now.sides) met }
        ensures { let s = self.now.inverse.now in let p = sample_of_rows (length s.columns) self.now.rows.now in let at = slice_index self.now.basis.now.rows in
            IfOk result (IsSided p at (inverse_of s) s.determinant) }
    {
        let coef = self.coefficients(alloc)?;
        let turned = self.listed_sides(
            alloc,
            coef.as_slice(),
            before.sides.as_slice(),
            &before.weights,
            &[met.entered, met.left],
        )?;
        let sides = turned.sides;
        if !self.holds_basis(sides.as_slice()) {
            return self.sided_anew(alloc, coef, before);
        }
        let nearby = self.near_past(alloc, before, met, coef.as_slice(), sides.as_slice())?;
        Ok(Sided {
            coef,
            sides,
            near: nearby.near,
            weights: turned.weights,
            residuals: nearby.residuals,
        })
    }

    /// The dual values, by what the rows weigh on their sides.
    fn dual_numbers(&self, alloc: Global, sided: &Sided) -> Result<DualNumbers, Obstacle>
        requires basis { IsWholeBasis self.now }
        requires sided { let s = self.now.inverse.now in let p = sample_of_rows (length s.columns) self.now.rows.now in let at = slice_index self.now.basis.now.rows in
            IsSided p at (inverse_of s) s.determinant sided.now }
        ensures { let s = self.now.inverse.now in let p = sample_of_rows (length s.columns) self.now.rows.now in let at = slice_index self.now.basis.now.rows in
            IfOk result (AreDualNumbers p at (inverse_of s) s.determinant) }
    {
        let weights = &sided.weights;
        let constant = balancing_numbers(alloc, self.inverse, weights.constant.columns.as_slice())?;
        let linear = balancing_numbers(alloc, self.inverse, weights.linear.columns.as_slice())?;
        Ok(DualNumbers { constant, linear })
    }

    /// What stands at a basis, with the dual values.
    fn standing(&self, alloc: Global, sided: Sided) -> Result<WholeSolution, Obstacle>
        requires basis { IsWholeBasis self.now }
        requires sided { let s = self.now.inverse.now in let p = sample_of_rows (length s.columns) self.now.rows.now in let at = slice_index self.now.basis.now.rows in
            IsSided p at (inverse_of s) s.determinant sided }
        ensures { let s = self.now.inverse.now in let p = sample_of_rows (length s.columns) self.now.rows.now in let at = slice_index self.now.basis.now.rows in
            IfOk result (IsWholeSolution p at (inverse_of s) s.determinant) }
    {
        match self.dual_numbers(alloc, &sided) {
            Ok(duals) => Ok(WholeSolution {
                coef: sided.coef,
                sides: sided.sides,
                near: sided.near,
                weights: sided.weights,
                residuals: sided.residuals,
                constant: duals.constant,
                linear: duals.linear,
            }),
            Err(obstacle) => {
                drop(sided);
                Err(obstacle)
            }
        }
    }

    /// What stands at a basis.
    pub fn solution(&self, alloc: Global) -> Result<WholeSolution, Obstacle>
        requires basis { IsWholeBasis self.now }
        ensures { let s = self.now.inverse.now in let p = sample_of_rows (length s.columns) self.now.rows.now in let at = slice_index self.now.basis.now.rows in
            IfOk result (IsWholeSolution p at (inverse_of s) s.determinant) }
    {
        let n = self.basis.rows.as_slice().len() as u32;
        let coef = self.coefficients(alloc)?;
        let ranges = Ranges::of(alloc, self.rows, n)?;
        let uncounted = basic_sides(alloc, self.rows.len())?;
        let weights = Weights::<i128>::none(alloc, n)?;
        let sided = self.sided(alloc, coef, ranges, uncounted.as_slice(), &weights)?;
        let solution = self.standing(alloc, sided)?;
        Ok(solution)
    }

    /// What stands at a basis but for the dual values, from what stood at another one.
    fn sided_past(
        &self,
        alloc: Global,
        before: &WholeSolution,
        joint: Option<Joint>,
    ) -> Result<Sided, Obstacle>
        requires basis { IsWholeBasis self.now }
        requires before { HasWeights (sample_of_rows (length self.now.inverse.now.columns) self.now.rows.now) before.now }
        requires past { let s = self.now.inverse.now in let p = sample_of_rows (length s.columns) self.now.rows.now in let at = slice_index self.now.basis.now.rows in
            IfSome joint (IsPast p at (inverse_of s) (side_in before.now.sides)) }
        ensures { let s = self.now.inverse.now in let p = sample_of_rows (length s.columns) self.now.rows.now in let at = slice_index self.now.basis.now.rows in
            IfOk result (IsSided p at (inverse_of s) s.determinant) }
    {
        match joint {
            Some(met) => self.sided_past_joint(alloc, before, met),
            None => {
                let coef = self.coefficients(alloc)?;
                self.sided_anew(alloc, coef, before)
            }
        }
    }

    /// What stands at a basis, from what stood at another one of the same rows. Past a joint of a walk all rows but both of its own
    /// keep their sides.
    pub fn solution_after(
        &self,
        alloc: Global,
        before: &WholeSolution,
        joint: Option<Joint>,
    ) -> Result<WholeSolution, Obstacle>
        requires basis { IsWholeBasis self.now }
        requires before { HasWeights (sample_of_rows (length self.now.inverse.now.columns) self.now.rows.now) before.now }
        requires past { let s = self.now.inverse.now in let p = sample_of_rows (length s.columns) self.now.rows.now in let at = slice_index self.now.basis.now.rows in
            IfSome joint (IsPast p at (inverse_of s) (side_in before.now.sides)) }
        ensures { let s = self.now.inverse.now in let p = sample_of_rows (length s.columns) self.now.rows.now in let at = slice_index self.now.basis.now.rows in
            IfOk result (IsWholeSolution p at (inverse_of s) s.determinant) }
    {
        let sided = self.sided_past(alloc, before, joint)?;
        let solution = self.standing(alloc, sided)?;
        Ok(solution)
    }
}
