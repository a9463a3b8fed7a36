//! Whether each residual lies on the side of its row.
ghost use Rattle.std.specs.Prelude.{◌≡◌, ◌≤◌, ◌<◌, ◌+◌, ◌*◌, ◌^◌, ℕ, pos, unsigned_abs, All, IfSome, IsTrue, length};
ghost use Rattle.rational_laws.specs.Rational.{◌*ℚ◌, neg_ℚ, whole};
ghost use Rattle.frac_core.specs.Values.{value as value128};
ghost use Rattle.loss_model.specs.Problem.{number_at, sample};
ghost use Rattle.loss_model.specs.Sample.{residual};
ghost use Rattle.loss_model.specs.Vertex.{IsOn};
ghost use Rattle.wide_int.specs.Numbers.{sizes};
ghost use Rattle.rational_laws.specs.WholeLists.{whole_at};
ghost use Rattle.cert_sums.specs.Tables.{IsTable};
ghost use Rattle.cert_sums.specs.Duals.{side_in};
ghost use Rattle.cert_sums.specs.Residuals.{IsWholeOn, AreMultipliers, NarrowRowsFollow};

use crate::long_rows::long_follow_sides;
use crate::products::{has_room, narrow_row_product, narrowed};
use crate::scale::{answer_scaled, common_scale};
use crate::table::Table;
use crate::vertices::side;
use frac_core::{Frac128, List};
use loss_model::{Problem, Side, Vertex};
use ratio::Ratio;
use std::alloc::Global;
use wide_int::row_product;

/// What the cells of a row are multiplied by to give its residual times the scale: the negated coefficients times it,
/// and behind them the scale itself.
#[derive(Drop)]
struct Multipliers {
    scale: u128,
    numbers: List<i128>,
}

// The numbers, for a scale.
fn numbers_of(alloc: Global, coef: &[Ratio], scale: u128) -> Option<List<i128>>
    ensures size { IfSome result (λ made. length made ≡ length coef.now + 1) }
    ensures each { IfSome result (λ made. (k : ℕ) → k < length coef.now → whole_at made k ≡ whole (pos scale) *ℚ neg_ℚ (number_at coef.now k)) }
    ensures last { IfSome result (λ made. whole_at made (length coef.now) ≡ whole (pos scale)) }
{
    let mut made = List::new(alloc);
    for k in 0..coef.len() {
        let plain = answer_scaled(&coef[k], scale)?;
        let number = plain.checked_neg()?;
        if made.push(number).is_err() {
            return None;
        }
    }
    match i128::try_from(scale) {
        Ok(last) => {
            if made.push(last).is_err() {
                return None;
            }
            Some(made)
        }
        Err(_) => None,
    }
}

// Those of coefficients.
fn multipliers_of(alloc: Global, coef: &[Ratio]) -> Option<Multipliers>
    ensures { IfSome result (AreMultipliers coef.now) }
{
    let scale = common_scale(1, coef)?;
    let numbers = numbers_of(alloc, coef, scale)?;
    Some(Multipliers { scale, numbers })
}

// Whether a residual times a positive number lies on a side. No branch is on the side, which is as good as random.
#[inline]
fn is_on(side: Side, number: i128) -> bool
    ensures { IsTrue result → IsWholeOn side number }
{
    ((number <= 0) | (side == Side::Up)) & ((number >= 0) | (side == Side::Down))
}

/// Whether each residual lies on the side of its row.
pub(crate) fn follow_sides(
    alloc: Global,
    problem: &Problem<Frac128>,
    table: &Table,
    vertex: &Vertex,
) -> bool
    requires { IsTable problem.now table.now }
    ensures { IsTrue result → (i : ℕ) → i < length problem.now.rows → IsOn (side_in vertex.now i) (residual (sample value128 problem.now) (number_at vertex.now.coef) i) }
{
    if narrow_follow_sides(alloc, problem, table, vertex) {
        return true;
    }
    long_follow_sides(alloc, problem, table, vertex)
}

// The same, by numbers of 127 bits.
fn narrow_follow_sides(
    alloc: Global,
    problem: &Problem<Frac128>,
    table: &Table,
    vertex: &Vertex,
) -> bool
    requires { IsTable problem.now table.now }
    ensures { IsTrue result → (i : ℕ) → i < length problem.now.rows → IsOn (side_in vertex.now i) (residual (sample value128 problem.now) (number_at vertex.now.coef) i) }
{
    if !table.is_narrow {
        return false;
    }
    let coef = vertex.coef.as_slice();
    if coef.len() != problem.columns as usize {
        return false;
    }
    match multipliers_of(alloc, coef) {
        Some(by) => {
            let numbers = by.numbers.as_slice();
            if !has_room(numbers, table.limit) {
                return false;
            }
            all_follow(alloc, table, numbers, vertex)
        }
        None => false,
    }
}

// Whether the sums of the cells of each row times these numbers lie on the side of the row.
fn all_follow(alloc: Global, table: &Table, numbers: &[i128], vertex: &Vertex) -> bool
    requires same { All (λ w. length w.narrow ≡ length numbers.now) table.now.rows }
    requires small { All (λ w. All (λ e. unsigned_abs e ≤ table.now.limit) w.narrow) table.now.rows }
    requires bound { table.now.limit * sizes numbers.now < 2 ^ 127 }
    ensures { IsTrue result → NarrowRowsFollow table.now.rows numbers.now vertex.now }
{
    match narrowed(alloc, numbers) {
        Some(narrow) => narrow_rows_follow(table, narrow.as_slice(), vertex),
        None => rows_follow(table, numbers, vertex),
    }
}

// The same, of numbers of any width.
fn rows_follow(table: &Table, numbers: &[i128], vertex: &Vertex) -> bool
    requires same { All (λ w. length w.narrow ≡ length numbers.now) table.now.rows }
    requires small { All (λ w. All (λ e. unsigned_abs e ≤ table.now.limit) w.narrow) table.now.rows }
    requires bound { table.now.limit * sizes numbers.now < 2 ^ 127 }
    ensures { IsTrue result → NarrowRowsFollow table.now.rows numbers.now vertex.now }
{
    let rows = table.rows.as_slice();
    for i in 0..rows.len() {
        let number = row_product(rows[i].narrow.as_slice(), numbers, table.limit);
        if !is_on(side(vertex, i), number) {
            return false;
        }
    }
    true
}

// The same, of numbers of 64 bits.
fn narrow_rows_follow(table: &Table, numbers: &[i64], vertex: &Vertex) -> bool
    requires same { All (λ w. length w.narrow ≡ length numbers.now) table.now.rows }
    requires small { All (λ w. All (λ e. unsigned_abs e ≤ table.now.limit) w.narrow) table.now.rows }
    requires bound { table.now.limit * sizes numbers.now < 2 ^ 127 }
    ensures { IsTrue result → NarrowRowsFollow table.now.rows numbers.now vertex.now }
{
    let rows = table.rows.as_slice();
    for i in 0..rows.len() {
        let number = narrow_row_product(rows[i].narrow.as_slice(), numbers, table.limit);
        if !is_on(side(vertex, i), number) {
            return false;
        }
    }
    true
}
