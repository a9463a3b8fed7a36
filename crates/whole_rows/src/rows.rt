//! The rows of a problem in whole numbers.
ghost use Rattle.std.specs.Prelude.{◌≡◌, ◌≢◌, ℕ, ◌<◌, ◌≤◌, All, length, IfOk, pos};
ghost use Rattle.rational_laws.specs.Fraction.{rational};
ghost use Rattle.rational_laws.specs.Rational.{◌*ℚ◌, ◌≤ℚ◌, whole};
ghost use Rattle.loss_model.specs.Problem.{sample, value_at, IsWellShaped};
ghost use Rattle.rational_laws.specs.WholeLists.{whole_at};
ghost use Rattle.whole_rows.specs.Scaled.{IsScaled};
ghost use Rattle.rational_laws.specs.Pairs.{ArePaired};
ghost use Rattle.whole_rows.specs.Wholes.{factor_value, factor_at, IsPositive, IsWholeRow, whole_sample};

use crate::factor::{Factor, plain_factor, reduced_factor, whole_value};
use frac_core::{Exact, List};
use loss_model::{Problem, Row};
use std::alloc::Global;
use whole_inverse::{Obstacle, room_for};

/// A row in whole numbers.
#[derive(Drop)]
pub struct WholeRow<N> {
    pub x: List<N>,
    pub y: N,
    pub up0: N,
    pub up1: N,
    pub down0: N,
    pub down1: N,
}

/// A problem in whole numbers, with the factors of its columns, its responses and its costs.
#[derive(Drop)]
pub struct WholeProblem<N, M> {
    pub columns: u32,
    pub rows: List<WholeRow<N>>,
    pub factors: List<Factor<M>>,
    pub response: Factor<M>,
    pub cost: Factor<M>,
}

/// A value times a factor.
fn number<F: Exact>(v: F, factor: Factor<i128>) -> Result<i64, Obstacle>
    requires { IsPositive factor }
    ensures { IfOk result (λ r. whole r ≡ factor_value factor *ℚ rational (F.value v)) }
{
    match whole_value(v, factor) {
        Some(r) => Ok(r),
        None => Err(Obstacle::TooWide),
    }
}

/// The entries of a row.
fn whole_entries<F: Exact>(
    alloc: Global,
    x: &[F],
    factors: &[Factor<i128>],
) -> Result<List<i64>, Obstacle>
    requires same { length factors.now ≡ length x.now }
    requires positive { All IsPositive factors.now }
    ensures size { IfOk result (λ made. length made ≡ length x.now) }
    ensures each { IfOk result (λ made. (k : ℕ) → k < length x.now → whole_at made k ≡ factor_at factors.now k *ℚ value_at F.value x.now k) }
{
    let mut made = room_for(alloc, x.len())?;
    for k in 0..x.len() {
        let entry = number(x[k], factors[k])?;
        if made.push(entry).is_err() {
            return Err(Obstacle::OutOfMemory);
        }
    }
    Ok(made)
}

/// A row.
fn whole_row<F: Exact>(
    alloc: Global,
    row: &Row<F>,
    factors: &[Factor<i128>],
    response: Factor<i128>,
    cost: Factor<i128>,
) -> Result<WholeRow<i64>, Obstacle>
    requires same { length factors.now ≡ length row.now.x }
    requires positive { All IsPositive factors.now }
    requires response { IsPositive response }
    requires cost { IsPositive cost }
    ensures { IfOk result (IsWholeRow F.value factors.now response cost row.now) }
{
    let x = whole_entries(alloc, row.x.as_slice(), factors)?;
    let y = number(row.y, response)?;
    let up0 = number(row.up0, cost)?;
    let up1 = number(row.up1, cost)?;
    let down0 = number(row.down0, cost)?;
    let down1 = number(row.down1, cost)?;
    Ok(WholeRow {
        x,
        y,
        up0,
        up1,
        down0,
        down1,
    })
}

/// All rows.
fn whole_rows<F: Exact>(
    alloc: Global,
    rows: &[Row<F>],
    factors: &[Factor<i128>],
    response: Factor<i128>,
    cost: Factor<i128>,
) -> Result<List<WholeRow<i64>>, Obstacle>
    requires same { All (λ r. length r.x ≡ length factors.now) rows.now }
    requires positive { All IsPositive factors.now }
    requires response { IsPositive response }
    requires cost { IsPositive cost }
    ensures size { IfOk result (λ made. length made ≡ length rows.now) }
    ensures paired { IfOk result (λ made. ArePaired (IsWholeRow F.value factors.now response cost) rows.now made) }
{
    let mut made = room_for(alloc, rows.len())?;
    for i in 0..rows.len() {
        let row = whole_row(alloc, &rows[i], factors, response, cost)?;
        if made.push(row).is_err() {
            return Err(Obstacle::OutOfMemory);
        }
    }
    Ok(made)
}

/// The entries of a column.
fn column_values<F: Exact>(alloc: Global, rows: &[Row<F>], k: usize) -> Result<List<F>, Obstacle>
    requires { All (λ r. k < length r.x) rows.now }
{
    let mut values = room_for(alloc, rows.len())?;
    for i in 0..rows.len() {
        if values.push(rows[i].x.as_slice()[k]).is_err() {
            return Err(Obstacle::OutOfMemory);
        }
    }
    Ok(values)
}

/// The factors of the columns.
fn column_factors<F: Exact>(
    alloc: Global,
    rows: &[Row<F>],
    columns: u32,
) -> Result<List<Factor<i128>>, Obstacle>
    requires { All (λ r. length r.x ≡ columns) rows.now }
    ensures size { IfOk result (λ made. length made ≡ columns) }
    ensures positive { IfOk result (λ made. All IsPositive made) }
{
    let mut made = List::new(alloc);
    for k in 0..columns {
        let values = column_values(alloc, rows, k as usize)?;
        if made.push(reduced_factor(values.as_slice())).is_err() {
            return Err(Obstacle::OutOfMemory);
        }
    }
    Ok(made)
}

/// The factor of the responses.
fn response_factor<F: Exact>(alloc: Global, rows: &[Row<F>]) -> Result<Factor<i128>, Obstacle>
    ensures { IfOk result IsPositive }
{
    let mut values = room_for(alloc, rows.len())?;
    for i in 0..rows.len() {
        if values.push(rows[i].y).is_err() {
            return Err(Obstacle::OutOfMemory);
        }
    }
    Ok(reduced_factor(values.as_slice()))
}

/// The factor of the costs, which is a common denominator.
fn cost_factor<F: Exact>(rows: &[Row<F>]) -> Factor<i128>
    ensures { IsPositive result }
{
    let mut found = Factor { over: 1, under: 1 };
    for i in 0..rows.len() {
        let row = &rows[i];
        found = plain_factor(found, row.up0);
        found = plain_factor(found, row.up1);
        found = plain_factor(found, row.down0);
        found = plain_factor(found, row.down1);
    }
    found
}

/// A problem in whole numbers, where all of them have 64 bits.
pub fn whole_problem<F: Exact>(
    alloc: Global,
    problem: &Problem<F>,
) -> Result<WholeProblem<i64, i128>, Obstacle>
    requires shaped { IsWellShaped problem.now }
    ensures scaled { IfOk result (λ w. IsScaled (sample F.value problem.now) (whole_sample w) (factor_at w.factors) (factor_value w.response) (factor_value w.cost)) }
    ensures wide { IfOk result (λ w. All (λ r. length r.x ≡ problem.now.columns) w.rows) }
    ensures factors { IfOk result (λ w. (k : ℕ) → k < problem.now.columns → factor_at w.factors k ≢ whole (pos 0)) }
    ensures response { IfOk result (λ w. ¬ (factor_value w.response ≤ℚ whole (pos 0))) }
    ensures cost { IfOk result (λ w. ¬ (factor_value w.cost ≤ℚ whole (pos 0))) }
{
    let rows = problem.rows.as_slice();
    let factors = column_factors(alloc, rows, problem.columns)?;
    let response = response_factor(alloc, rows)?;
    let cost = cost_factor(rows);
    let made = whole_rows(alloc, rows, factors.as_slice(), response, cost)?;
    Ok(WholeProblem {
        columns: problem.columns,
        rows: made,
        factors,
        response,
        cost,
    })
}
