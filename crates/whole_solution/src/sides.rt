//! The sides of all rows.
ghost use Rattle.std.specs.Prelude.{◌≡◌, ◌≢◌, ℕ, ℤ, ◌<◌, ◌≤◌, ◌≤ℤ◌, false, if◌then◌else◌, All, length, slice_index, unsigned_abs, IfOk, pos};
ghost use Rattle.rational_laws.specs.Selections.{is_among};
ghost use Rattle.loss_model.specs.declared.vertex.Side.TheVariants.{Basic};
ghost use Rattle.loss_model.specs.Sample.{residual};
ghost use Rattle.basis_model.specs.Perturbed.{perturbed_side};
ghost use Rattle.basis_model.specs.Basis.{coefficient, outside_row, side_at};
ghost use Rattle.rational_laws.specs.WholeLists.{whole_at};
ghost use Rattle.whole_inverse.specs.Shares.{share, share_at};
ghost use Rattle.whole_inverse.specs.Squares.{inverse_of};
ghost use Rattle.whole_rows.specs.Wholes.{sample_of_rows};
ghost use Rattle.loss_model.specs.Sides.{side_in};
ghost use Rattle.whole_solution.specs.Standing.{IsWholeBasis};

use crate::basis::WholeBasis;
use crate::signs::{perturbed_sign, side_of_number};
use frac_core::List;
use loss_model::Side;
use std::alloc::Global;
use whole_inverse::{Obstacle, WholeInverse, room_for};

/// Whether a list of rows holds one.
pub fn is_held(basis: &[u32], row: u32) -> bool
    ensures { result ≡ is_among (slice_index basis.now) (length basis.now) row }
{
    let mut found = false;
    for j in 0..basis.len() {
        if basis[j] == row {
            found = true;
        }
    }
    found
}

/// The side `Basic` for each row.
pub fn basic_sides(alloc: Global, rows: usize) -> Result<List<Side>, Obstacle>
    ensures size { IfOk result (λ made. length made ≡ rows) }
    ensures each { IfOk result (λ made. (i : ℕ) → i < rows → side_in made i ≡ Basic) }
{
    let mut made = List::new(alloc);
    for _ in 0..rows {
        if made.push(Side::Basic).is_err() {
            return Err(Obstacle::OutOfMemory);
        }
    }
    Ok(made)
}

impl<'a> WholeBasis<'a, i64, WholeInverse> {
    /// The side of a row outside the basis. Where its residual is 0, all its coordinates are looked at.
    fn outside_side(&self, row: u32, number: i128) -> Result<Side, Obstacle>
        requires basis { IsWholeBasis self.now }
        requires row { row < length self.now.rows.now }
        requires outside { (j : ℕ) → j < length self.now.basis.now.rows → slice_index self.now.basis.now.rows j ≢ row }
        requires residual { let s = self.now.inverse.now in let p = sample_of_rows (length s.columns) self.now.rows.now in let at = slice_index self.now.basis.now.rows in
            share number s.determinant ≡ residual p (coefficient p at (inverse_of s)) row }
        ensures { let s = self.now.inverse.now in let p = sample_of_rows (length s.columns) self.now.rows.now in let at = slice_index self.now.basis.now.rows in
            IfOk result (λ o. o ≡ perturbed_side p.rows p.columns at (outside_row p at (inverse_of s) row)) }
    {
        if number != 0 {
            return Ok(side_of_number(number));
        }
        let rows = self.rows;
        let chosen = &rows[row as usize];
        let x = chosen.x.as_slice();
        let coords = self.inverse.coordinates(x, self.limit)?;
        Ok(perturbed_sign(number, coords.as_slice(), self.basis, row))
    }

    /// The side of a row.
    fn side_of_row(&self, row: u32, number: i128) -> Result<Side, Obstacle>
        requires basis { IsWholeBasis self.now }
        requires row { row < length self.now.rows.now }
        requires residual { let s = self.now.inverse.now in let p = sample_of_rows (length s.columns) self.now.rows.now in let at = slice_index self.now.basis.now.rows in
            share number s.determinant ≡ residual p (coefficient p at (inverse_of s)) row }
        ensures { let s = self.now.inverse.now in let p = sample_of_rows (length s.columns) self.now.rows.now in let at = slice_index self.now.basis.now.rows in
            IfOk result (λ o. o ≡ side_at p at (inverse_of s) row) }
    {
        if is_held(self.basis.rows.as_slice(), row) {
            return Ok(Side::Basic);
        }
        self.outside_side(row, number)
    }

    /// The side of a row, where it is outside the basis. A residual that isn't 0 tells it, without a look at the basis.
    #[inline]
    pub(crate) fn free_side(&self, row: u32, number: i128) -> Result<Side, Obstacle>
        requires basis { IsWholeBasis self.now }
        requires row { row < length self.now.rows.now }
        requires residual { let s = self.now.inverse.now in let p = sample_of_rows (length s.columns) self.now.rows.now in let at = slice_index self.now.basis.now.rows in
            share number s.determinant ≡ residual p (coefficient p at (inverse_of s)) row }
        ensures { let s = self.now.inverse.now in let p = sample_of_rows (length s.columns) self.now.rows.now in let at = slice_index self.now.basis.now.rows in
            IfOk result (λ o. is_among at p.columns row ≡ false → o ≡ side_at p at (inverse_of s) row) }
    {
        if number != 0 {
            return Ok(side_of_number(number));
        }
        let side = self.side_of_row(row, number)?;
        Ok(side)
    }

    /// The sides with `Basic` at the rows of the basis.
    fn with_basis(&self, sides: List<Side>) -> List<Side>
        requires basis { IsWholeBasis self.now }
        requires size { length sides ≡ length self.now.rows.now }
        ensures size { length result ≡ length self.now.rows.now }
        ensures each { (i : ℕ) → side_in result i ≡ (if is_among (slice_index self.now.basis.now.rows) (length self.now.basis.now.rows) i then Basic else side_in sides i) }
    {
        let mut made = sides;
        let basis = self.basis.rows.as_slice();
        for j in 0..basis.len() {
            made.replace(basis[j], Side::Basic);
        }
        made
    }

    /// The sides of all rows, which have these residuals.
    pub fn sides(&self, alloc: Global, residuals: &[i128]) -> Result<List<Side>, Obstacle>
        requires basis { IsWholeBasis self.now }
        requires size { length residuals.now ≡ length self.now.rows.now }
        requires residuals { let s = self.now.inverse.now in let p = sample_of_rows (length s.columns) self.now.rows.now in let at = slice_index self.now.basis.now.rows in
            (i : ℕ) → i < p.rows → share_at s.determinant residuals.now i ≡ residual p (coefficient p at (inverse_of s)) i }
        ensures size { IfOk result (λ made. length made ≡ length self.now.rows.now) }
        ensures each { let s = self.now.inverse.now in let p = sample_of_rows (length s.columns) self.now.rows.now in let at = slice_index self.now.basis.now.rows in
            IfOk result (λ made. (i : ℕ) → i < p.rows → side_in made i ≡ side_at p at (inverse_of s) i) }
    {
        let mut made = room_for(alloc, residuals.len())?;
        for row in 0..residuals.len() {
            let side = self.free_side(row as u32, residuals[row])?;
            if made.push(side).is_err() {
                return Err(Obstacle::OutOfMemory);
            }
        }
        Ok(self.with_basis(made))
    }
}
