//! The products of all rows and a column of numerators.
ghost use Rattle.std.specs.Prelude.{◌≡◌, ℕ, ℤ, ◌<◌, ◌≤◌, All, length, unsigned_abs, IfOk};
ghost use Rattle.rational_laws.specs.Rational.{◌*ℚ◌};
ghost use Rattle.rational_laws.specs.RationalSums.{sum_ℚ};
ghost use Rattle.rational_laws.specs.WholeLists.{whole_at};
ghost use Rattle.whole_inverse.specs.Shares.{share_at};
ghost use Rattle.whole_rows.specs.Wholes.{of_whole};
ghost use Rattle.whole_solution.specs.Columns.{IsColumn};

use crate::column::Column;
use crate::halves::{column_halves, halved_products, room_of};
use frac_core::List;
use std::alloc::Global;
use whole_inverse::{Obstacle, room_for};
use whole_rows::WholeRow;

/// The numerators of the products, one row at a time; where `NARROW`, of a column whose products are known to have 63 bits alone.
fn products_by<const NARROW: bool>(
    alloc: Global,
    rows: &[WholeRow<i64>],
    column: &Column,
) -> Result<List<i128>, Obstacle>
    requires column { IsColumn column.now.numbers.now column.now.limit column.now }
    requires wide { All (λ r. length r.x ≡ length column.now.numbers.now) rows.now }
    requires small { All (λ r. All (λ e. unsigned_abs e ≤ column.now.limit) r.x) rows.now }
    ensures size { IfOk result (λ made. length made ≡ length rows.now) }
    ensures each { let numbers = column.now.numbers.now in
        IfOk result (λ made. (d : ℤ) (i : ℕ) → i < length rows.now → share_at d made i ≡ sum_ℚ (length numbers) (λ k. of_whole rows.now (λ r. whole_at r.x k) i *ℚ share_at d numbers k)) }
{
    let mut made = room_for(alloc, rows.len())?;
    for i in 0..rows.len() {
        let row = &rows[i];
        match column.product_in::<NARROW>(row.x.as_slice()) {
            Some(number) => made.add(number)?,
            None => return Err(Obstacle::TooWide),
        }
    }
    Ok(made)
}

/// The same, by halves of the numerators, where these have room.
fn products_by_halves(
    alloc: Global,
    rows: &[WholeRow<i64>],
    column: &[i128],
    limit: u64,
) -> Result<List<i128>, Obstacle>
    requires wide { All (λ r. length r.x ≡ length column.now) rows.now }
    requires small { All (λ r. All (λ e. unsigned_abs e ≤ limit) r.x) rows.now }
    ensures size { IfOk result (λ made. length made ≡ length rows.now) }
    ensures each { IfOk result (λ made. (d : ℤ) (i : ℕ) → i < length rows.now → share_at d made i ≡ sum_ℚ (length column.now) (λ k. of_whole rows.now (λ r. whole_at r.x k) i *ℚ share_at d column.now k)) }
{
    match room_of(limit, column.len()) {
        Some(room) => {
            let halves = column_halves(alloc, column, room.unit)?;
            halved_products(alloc, rows, halves.as_slice(), room)
        }
        None => Err(Obstacle::TooWide),
    }
}

/// The numerators of the products of all rows, whose entries are within the limit, and a column of numerators: by halves of these where
/// the products are wider than 63 bits and halves have room.
pub fn row_products(
    alloc: Global,
    rows: &[WholeRow<i64>],
    column: &[i128],
    limit: u64,
) -> Result<List<i128>, Obstacle>
    requires wide { All (λ r. length r.x ≡ length column.now) rows.now }
    requires small { All (λ r. All (λ e. unsigned_abs e ≤ limit) r.x) rows.now }
    ensures size { IfOk result (λ made. length made ≡ length rows.now) }
    ensures each { IfOk result (λ made. (d : ℤ) (i : ℕ) → i < length rows.now → share_at d made i ≡ sum_ℚ (length column.now) (λ k. of_whole rows.now (λ r. whole_at r.x k) i *ℚ share_at d column.now k)) }
{
    let by = Column::of(column, limit);
    if by.is_narrow() {
        return products_by::<true>(alloc, rows, &by);
    }
    match products_by_halves(alloc, rows, column, limit) {
        Err(Obstacle::TooWide) => products_by::<false>(alloc, rows, &by),
        answer => answer,
    }
}
