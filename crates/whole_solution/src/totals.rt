//! What all rows weigh by their bounds, kept as rows change sides.
//!
//! From one basis to the next few rows change sides, so that the totals are not made anew.
ghost use Rattle.std.specs.Prelude.{◌≡◌, ℕ, ℤ, ◌<◌, ◌+ℤ◌, ◌*ℤ◌, ◌≤ℤ◌, neg_ℤ, pos, All, List as list, length, IfOk, IfSome, IsTrue, OnOk};
ghost use Rattle.rational_laws.specs.Rational.{◌+ℚ◌, ◌-ℚ◌, ◌*ℚ◌, whole};
ghost use Rattle.rational_laws.specs.RationalSums.{sum_ℚ};
ghost use Rattle.wide_int.specs.Numbers.{number_of, total as sum};
ghost use Rattle.loss_model.specs.declared.vertex.Side.TheVariants.{Basic};
ghost use Rattle.rational_laws.specs.WholeLists.{whole_at};
ghost use Rattle.whole_inverse.specs.Shares.{share, share_at};
ghost use Rattle.whole_rows.specs.Wholes.{sample_of_rows};
ghost use Rattle.whole_rows.specs.declared.rows.WholeRow.{WholeRow as Row};
ghost use Rattle.loss_model.specs.Sides.{side_in};
ghost use Rattle.whole_solution.specs.Weighing.{bound_of, AreRaised, AreTurned, AreWeights};

use crate::bounds::bound;
use basis_model::Part;
use frac_core::List;
use loss_model::Side;
use std::alloc::Global;
use whole_inverse::Obstacle;
use whole_rows::WholeRow;
use wide_int::{Wide, wide_sum};

/// What all rows weigh on their sides by a part of their bounds: the totals of their entries in each column, and that of
/// their responses.
#[derive(Drop)]
pub struct Totals<N> {
    pub columns: List<N>,
    pub response: N,
}

/// The same by both parts of their bounds.
#[derive(Drop)]
pub struct Weights<N> {
    pub constant: Totals<N>,
    pub linear: Totals<N>,
}

/// A row's change of sides.
#[derive(Clone, Copy)]
pub struct Turn {
    pub from: Side,
    pub to: Side,
}

impl Turn {
    /// Whether the side stays.
    pub(crate) fn stays(self) -> bool
        ensures { IsTrue result → self.to ≡ self.from }
    {
        self.to == self.from
    }
}

/// The difference of two bounds.
fn difference(after: i64, before: i64) -> Result<i128, Obstacle>
    ensures { IfOk result (λ n. n ≡ after +ℤ neg_ℤ before) }
{
    match i128::from(after).checked_sub(i128::from(before)) {
        Some(n) => Ok(n),
        None => Err(Obstacle::TooWide),
    }
}

/// What a row weighs more by a part of its bounds after it has changed sides.
fn change(chosen: &WholeRow<i64>, turn: Turn, part: Part) -> Result<i128, Obstacle>
    ensures { IfOk result (λ w. whole w ≡ bound_of chosen.now part turn.to -ℚ bound_of chosen.now part turn.from) }
{
    let after = bound(chosen, turn.to, part)?;
    let before = bound(chosen, turn.from, part)?;
    let weight = difference(after, before)?;
    Ok(weight)
}

/// A total after a number of some weight was added.
fn raised(total: i128, weight: i128, number: i64) -> Result<i128, Obstacle>
    ensures { IfOk result (λ n. n ≡ total +ℤ (weight *ℤ number)) }
{
    match weight.checked_mul(i128::from(number)) {
        Some(more) => match total.checked_add(more) {
            Some(sum) => Ok(sum),
            None => Err(Obstacle::TooWide),
        },
        None => Err(Obstacle::TooWide),
    }
}

/// Adds a row's entries of some weight to the totals of the columns.
fn raise_columns(totals: &mut List<i128>, x: &[i64], weight: i128) -> Result<(), Obstacle>
    requires { length x.now ≡ length totals.old }
    ensures size { OnOk result (length totals.new ≡ length totals.old) }
    ensures each { OnOk result ((k : ℕ) → k < length totals.old → whole_at totals.new k ≡ whole_at totals.old k +ℚ (whole_at x.now k *ℚ whole weight)) }
{
    let Ok(columns) = u32::try_from(x.len()) else {
        return Err(Obstacle::TooWide);
    };
    for k in 0..columns {
        let total = raised(totals.as_slice()[k as usize], weight, x[k as usize])?;
        totals.replace(k, total);
    }
    Ok(())
}

impl Totals<i128> {
    /// The totals of no row.
    fn none(alloc: Global, columns: u32) -> Result<Totals<i128>, Obstacle>
        ensures size { IfOk result (λ t. length t.columns ≡ columns) }
        ensures columns { IfOk result (λ t. (k : ℕ) → k < columns → whole_at t.columns k ≡ whole (pos 0)) }
        ensures response { IfOk result (λ t. t.response ≡ pos 0) }
    {
        let mut made = List::new(alloc);
        for _ in 0..columns {
            if made.push(0).is_err() {
                return Err(Obstacle::OutOfMemory);
            }
        }
        Ok(Totals {
            columns: made,
            response: 0,
        })
    }

    /// The same totals in lists of their own.
    fn copy(&self, alloc: Global) -> Result<Totals<i128>, Obstacle>
        ensures { IfOk result (λ t. t ≡ self.now) }
    {
        let columns = List::copy(alloc, self.columns.as_slice())?;
        Ok(Totals {
            columns,
            response: self.response,
        })
    }

    /// Adds what a row weighs more after it has changed sides.
    fn turn(&mut self, chosen: &WholeRow<i64>, turn: Turn, part: Part) -> Result<(), Obstacle>
        requires { length chosen.now.x ≡ length self.old.columns }
        ensures { OnOk result (AreRaised chosen.now (bound_of chosen.now part turn.to -ℚ bound_of chosen.now part turn.from) self.old self.new) }
    {
        let weight = change(chosen, turn, part)?;
        if weight == 0 {
            return Ok(());
        }
        raise_columns(&mut self.columns, chosen.x.as_slice(), weight)?;
        self.response = raised(self.response, weight, chosen.y)?;
        Ok(())
    }
}

/// A total times the determinant less a sum of products.
fn rest(total: i128, determinant: i128, xs: &[i128], ys: &[i128]) -> Option<Wide>
    requires { length xs.now ≡ length ys.now }
    ensures { IfSome result (λ n. number_of n ≡ (total *ℤ determinant) +ℤ neg_ℤ (sum xs.now ys.now)) }
{
    let sum = wide_sum(xs, ys)?;
    let number = Wide::product(total, determinant).plus(sum.negation())?;
    Some(number)
}

impl Totals<i128> {
    /// What the rows weigh in the residuals of these coefficients, whose numerators stand over the determinant, as does
    /// its own. This one is not printed: at a quantile, with the other part, it often comes to fewer bits.
    pub fn residual(&self, coef: &[i128], determinant: i128) -> Result<Wide, Obstacle>
        requires same { length coef.now ≡ length self.now.columns }
        requires some { pos 1 ≤ℤ determinant }
        ensures { IfOk result (λ n. share (number_of n) determinant ≡ whole self.now.response -ℚ sum_ℚ (length coef.now) (λ k. share_at determinant coef.now k *ℚ whole_at self.now.columns k)) }
    {
        match rest(self.response, determinant, coef, self.columns.as_slice()) {
            Some(number) => Ok(number),
            None => Err(Obstacle::TooWide),
        }
    }
}

impl Weights<i128> {
    /// The weights of rows none of which is counted.
    pub fn none(alloc: Global, columns: u32) -> Result<Weights<i128>, Obstacle>
        ensures { IfOk result (λ w. (rows : list (Row ℤ)) → AreWeights (sample_of_rows columns rows) (λ i. Basic) w) }
    {
        let constant = Totals::<i128>::none(alloc, columns)?;
        let linear = Totals::<i128>::none(alloc, columns)?;
        Ok(Weights { constant, linear })
    }

    /// The same weights in lists of their own.
    pub(crate) fn copy(&self, alloc: Global) -> Result<Weights<i128>, Obstacle>
        ensures { IfOk result (λ w. w ≡ self.now) }
    {
        let constant = self.constant.copy(alloc)?;
        let linear = self.linear.copy(alloc)?;
        Ok(Weights { constant, linear })
    }

    /// Adds what a row weighs more after it has changed sides.
    pub(crate) fn turn(&mut self, chosen: &WholeRow<i64>, turn: Turn) -> Result<(), Obstacle>
        requires constant { length chosen.now.x ≡ length self.old.constant.columns }
        requires linear { length chosen.now.x ≡ length self.old.linear.columns }
        ensures { OnOk result (AreTurned chosen.now turn.from turn.to self.old self.new) }
    {
        self.constant.turn(chosen, turn, Part::Constant)?;
        self.linear.turn(chosen, turn, Part::Linear)?;
        Ok(())
    }

    /// The weights of rows on new sides, from those on the old ones.
    pub fn after(
        &self,
        alloc: Global,
        rows: &[WholeRow<i64>],
        old: &[Side],
        new: &[Side],
    ) -> Result<Weights<i128>, Obstacle>
        requires old { length old.now ≡ length rows.now }
        requires new { length new.now ≡ length rows.now }
        requires wide { All (λ r. length r.x ≡ length self.now.constant.columns) rows.now }
        requires weights { AreWeights (sample_of_rows (length self.now.constant.columns) rows.now) (side_in old.now) self.now }
        ensures { IfOk result (AreWeights (sample_of_rows (length self.now.constant.columns) rows.now) (side_in new.now)) }
    {
        let mut weights = self.copy(alloc)?;
        for i in 0..rows.len() {
            let turn = Turn {
                from: old[i],
                to: new[i],
            };
            if !turn.stays() {
                weights.turn(&rows[i], turn)?;
            }
        }
        Ok(weights)
    }
}
