//! The numerators of the coefficients at a basis, and of the residuals of all rows.
ghost use Rattle.std.specs.Prelude.{◌≡◌, ℕ, ℤ, ◌*◌, ◌^◌, ◌<◌, ◌≤◌, ◌≤ℤ◌, ◌*ℤ◌, All, length, slice_index, unsigned_abs, IfOk, IfSome, pos};
ghost use Rattle.rational_laws.specs.Rational.{◌-ℚ◌, ◌*ℚ◌, whole};
ghost use Rattle.rational_laws.specs.RationalSums.{sum_ℚ};
ghost use Rattle.basis_model.specs.Basis.{coefficient};
ghost use Rattle.rational_laws.specs.WholeLists.{whole_at};
ghost use Rattle.whole_inverse.specs.Shares.{share, share_at, shares};
ghost use Rattle.whole_inverse.specs.Squares.{inverse_of};
ghost use Rattle.whole_rows.specs.Wholes.{of_whole, sample_of_rows};

use frac_core::List;
use loss_model::Basis;
use std::alloc::Global;
use whole_inverse::{Obstacle, WholeInverse, room_for};
use whole_rows::WholeRow;
use wide_int::{short_product, sum_of_products};

/// The numerators of a column at all positions.
fn column_of(alloc: Global, inverse: &WholeInverse, k: u32, n: u32) -> Result<List<i128>, Obstacle>
    requires size { length inverse.now.columns ≡ n }
    requires square { All (λ c. length c ≡ length inverse.now.columns) inverse.now.columns }
    requires within { k < n }
    ensures size { IfOk result (λ made. length made ≡ n) }
    ensures each { IfOk result (λ made. (d : ℤ) (j : ℕ) → j < n → share_at d made j ≡ shares inverse.now.columns d k j) }
{
    let mut made = room_for(alloc, n as usize)?;
    for j in 0..n {
        let column = inverse.numerators(j);
        if made.push(column[k as usize]).is_err() {
            return Err(Obstacle::OutOfMemory);
        }
    }
    Ok(made)
}

/// The responses of the rows of a basis.
fn responses(alloc: Global, rows: &[WholeRow<i64>], basis: &[u32]) -> Result<List<i128>, Obstacle>
    requires { All (λ b. b < length rows.now) basis.now }
    ensures size { IfOk result (λ made. length made ≡ length basis.now) }
    ensures each { IfOk result (λ made. (j : ℕ) → j < length basis.now → whole_at made j ≡ of_whole rows.now (λ r. whole r.y) (slice_index basis.now j)) }
{
    let mut made = room_for(alloc, basis.len())?;
    for j in 0..basis.len() {
        let row = &rows[basis[j] as usize];
        if made.push(i128::from(row.y)).is_err() {
            return Err(Obstacle::OutOfMemory);
        }
    }
    Ok(made)
}

/// The numerator of the sum of the products of shares and whole numbers.
pub fn product_of(column: &[i128], ys: &[i128]) -> Result<i128, Obstacle>
    requires { length column.now ≡ length ys.now }
    ensures { IfOk result (λ s. (d : ℤ) → share s d ≡ sum_ℚ (length column.now) (λ j. share_at d column.now j *ℚ whole_at ys.now j)) }
{
    match sum_of_products(column, ys) {
        Some(s) => Ok(s),
        None => Err(Obstacle::TooWide),
    }
}

/// The numerator of a coefficient, where nothing on the way to it is wider than 127 bits: then no list is made of the column.
fn short_coefficient(inverse: &WholeInverse, k: u32, n: u32, ys: &[i128]) -> Option<i128>
    requires size { length inverse.now.columns ≡ n }
    requires square { All (λ c. length c ≡ length inverse.now.columns) inverse.now.columns }
    requires within { k < n }
    requires same { length ys.now ≡ n }
    ensures { IfSome result (λ s. (d : ℤ) → share s d ≡ sum_ℚ n (λ j. shares inverse.now.columns d k j *ℚ whole_at ys.now j)) }
{
    let mut sum: i128 = 0;
    for j in 0..n {
        let column = inverse.numerators(j);
        let product = short_product(column[k as usize], ys[j as usize])?;
        sum = sum.checked_add(product)?;
    }
    Some(sum)
}

/// The numerator of a coefficient.
fn coefficient_of(
    alloc: Global,
    inverse: &WholeInverse,
    k: u32,
    n: u32,
    ys: &[i128],
) -> Result<i128, Obstacle>
    requires size { length inverse.now.columns ≡ n }
    requires square { All (λ c. length c ≡ length inverse.now.columns) inverse.now.columns }
    requires within { k < n }
    requires same { length ys.now ≡ n }
    ensures { IfOk result (λ s. (d : ℤ) → share s d ≡ sum_ℚ n (λ j. shares inverse.now.columns d k j *ℚ whole_at ys.now j)) }
{
    if let Some(number) = short_coefficient(inverse, k, n, ys) {
        return Ok(number);
    }
    let column = column_of(alloc, inverse, k, n)?;
    product_of(column.as_slice(), ys)
}

/// The numerators of all coefficients at a basis.
pub fn coefficients(
    alloc: Global,
    inverse: &WholeInverse,
    rows: &[WholeRow<i64>],
    basis: &Basis,
    n: u32,
) -> Result<List<i128>, Obstacle>
    requires size { length inverse.now.columns ≡ n }
    requires square { All (λ c. length c ≡ length inverse.now.columns) inverse.now.columns }
    requires basis { length basis.now.rows ≡ n }
    requires within { All (λ b. b < length rows.now) basis.now.rows }
    ensures size { IfOk result (λ made. length made ≡ n) }
    ensures each { let p = sample_of_rows n rows.now in
        IfOk result (λ made. (k : ℕ) → k < n → share_at inverse.now.determinant made k ≡ coefficient p (slice_index basis.now.rows) (inverse_of inverse.now) k) }
{
    let ys = responses(alloc, rows, basis.rows.as_slice())?;
    let mut made = room_for(alloc, n as usize)?;
    for k in 0..n {
        let number = coefficient_of(alloc, inverse, k, n, ys.as_slice())?;
        if made.push(number).is_err() {
            return Err(Obstacle::OutOfMemory);
        }
    }
    Ok(made)
}

/// A determinant, with a bound of the numbers whose products with it have room.
#[derive(Clone, Copy)]
struct Scale {
    determinant: i128,
    room: u64,
}

/// A determinant with the greatest such bound.
fn scale_of(determinant: i128) -> Scale
    requires { pos 1 ≤ℤ determinant }
    ensures determinant { result.determinant ≡ determinant }
    ensures room { result.room * unsigned_abs determinant < 2 ^ 127 }
{
    let most = i128::MAX as u128 / determinant.unsigned_abs();
    let room = u64::try_from(most).unwrap_or(u64::MAX);
    Scale { determinant, room }
}

/// A response times the determinant. One comparison takes the place of a checked product, which is a call.
fn level_of(y: i64, scale: Scale) -> Option<i128>
    requires { scale.room * unsigned_abs scale.determinant < 2 ^ 127 }
    ensures { IfSome result (λ n. n ≡ y *ℤ scale.determinant) }
{
    if y.unsigned_abs() <= scale.room {
        Some(i128::from(y) * scale.determinant)
    } else {
        i128::from(y).checked_mul(scale.determinant)
    }
}

/// The numerator of what is left of a response, over the determinant over which the fit stands.
fn residual_numerator(y: i64, fit: i128, scale: Scale) -> Option<i128>
    requires some { pos 1 ≤ℤ scale.determinant }
    requires room { scale.room * unsigned_abs scale.determinant < 2 ^ 127 }
    ensures { IfSome result (λ r. share r scale.determinant ≡ whole y -ℚ share fit scale.determinant) }
{
    let level = level_of(y, scale)?;
    let rest = level.checked_sub(fit)?;
    Some(rest)
}

/// The numerator of a residual, or a refusal.
fn scaled_residual(y: i64, fit: i128, scale: Scale) -> Result<i128, Obstacle>
    requires some { pos 1 ≤ℤ scale.determinant }
    requires room { scale.room * unsigned_abs scale.determinant < 2 ^ 127 }
    ensures { IfOk result (λ r. share r scale.determinant ≡ whole y -ℚ share fit scale.determinant) }
{
    match residual_numerator(y, fit, scale) {
        Some(r) => Ok(r),
        None => Err(Obstacle::TooWide),
    }
}

/// A bound of the numbers whose products with a determinant of 63 bits have room; 0 for a wider one, so that each is tested.
fn room_beside(determinant: i128) -> u64
    requires { pos 1 ≤ℤ determinant }
    ensures { result * unsigned_abs determinant < 2 ^ 127 }
{
    if determinant <= i128::from(i64::MAX) {
        1 << 63
    } else {
        0
    }
}

/// The numerator of one residual, or a refusal.
pub fn residual_of(y: i64, fit: i128, determinant: i128) -> Result<i128, Obstacle>
    requires { pos 1 ≤ℤ determinant }
    ensures { IfOk result (λ r. share r determinant ≡ whole y -ℚ share fit determinant) }
{
    let scale = Scale {
        determinant,
        room: room_beside(determinant),
    };
    scaled_residual(y, fit, scale)
}

/// The numerators of the residuals of all rows, from those of their fits.
pub fn residuals(
    alloc: Global,
    rows: &[WholeRow<i64>],
    fits: &[i128],
    determinant: i128,
) -> Result<List<i128>, Obstacle>
    requires same { length fits.now ≡ length rows.now }
    requires some { pos 1 ≤ℤ determinant }
    ensures size { IfOk result (λ made. length made ≡ length rows.now) }
    ensures each { IfOk result (λ made. (i : ℕ) → i < length rows.now → share_at determinant made i ≡ of_whole rows.now (λ r. whole r.y) i -ℚ share_at determinant fits.now i) }
{
    let scale = scale_of(determinant);
    let mut made = room_for(alloc, rows.len())?;
    for i in 0..rows.len() {
        let number = scaled_residual(rows[i].y, fits[i], scale)?;
        if made.push(number).is_err() {
            return Err(Obstacle::OutOfMemory);
        }
    }
    Ok(made)
}
