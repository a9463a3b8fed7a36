//! The order of perturbed ratios.
ghost use Rattle.std.specs.Prelude.{◌≡◌, ◌≢◌, ◌↔◌, ℕ, suc, ◌<◌, ◌≤◌, length, slice_index, IfOk, IfErr, IsTrue};
ghost use Rattle.std.specs.declared.cmp.Ordering.TheVariants.{Less};
ghost use Rattle.loss_model.specs.declared.vertex.Side.TheVariants.{Down};
ghost use Rattle.basis_model.specs.Lexicographic.{lex_cmp};
ghost use Rattle.basis_model.specs.Perturbed.{perturbed_side, ratio_on, ratio};
ghost use Rattle.basis_model.specs.RatioSpill.{IsSpillOn, IsRatioSpill};
ghost use Rattle.lex_rule.specs.Compared.{of_ratio, IsRatioAt, IsDivisorOf};

use crate::quotient::{Divisor, absolute, compare_entries};
use crate::scan::next_position;
use crate::sign::lex_sign;
use frac_core::Exact;
use loss_model::{Basis, Side, Spill};
use std::cmp::Ordering;

/// A row outside the basis, to compare perturbed ratios: its residual, and its coordinates by the
/// positions of the basis.
#[derive(Clone, Copy)]
pub struct Ratio<'a, F> {
    pub row: u32,
    pub residual: F,
    pub coords: &'a [F],
}

/// Whether a side is below the fit.
fn is_below(side: Side) -> bool
    ensures { IsTrue result ↔ (side ≡ Down) }
{
    match side {
        Side::Down => true,
        _ => false,
    }
}

/// What the entries of a ratio share.
fn divisor<F: Exact>(ratio: &Ratio<F>, basis: &Basis, position: u32) -> Divisor<F>
    requires { IsRatioAt F.value basis.now.rows position ratio.now }
    ensures divides { IsDivisorOf F.value position (of_ratio F.value ratio.now) result }
    ensures side { let n = length basis.now.rows in let at = slice_index basis.now.rows in
        (rows : ℕ) → ratio.now.row < rows → result.side ≡ perturbed_side rows n at (of_ratio F.value ratio.now) }
{
    let coord = ratio.coords[position as usize];
    Divisor {
        row: ratio.row,
        position,
        size: absolute(coord),
        side: lex_sign(ratio.residual, ratio.coords, basis, ratio.row),
    }
}

/// How two ratios compare at the entries before that of row `end`, which is neither of theirs.
fn compare_before<F: Exact>(
    ratios: (&Ratio<F>, &Ratio<F>),
    by: (Divisor<F>, Divisor<F>),
    basis: &Basis,
    end: u32,
) -> Result<Ordering, Spill<F>>
    requires left { IsRatioAt F.value basis.now.rows by.0.position ratios.0.now }
    requires right { IsRatioAt F.value basis.now.rows by.0.position ratios.1.now }
    requires left_divisor { IsDivisorOf F.value by.0.position (of_ratio F.value ratios.0.now) by.0 }
    requires right_divisor { IsDivisorOf F.value by.0.position (of_ratio F.value ratios.1.now) by.1 }
    requires before_left { end ≤ ratios.0.now.row }
    requires before_right { end ≤ ratios.1.now.row }
    ensures exact { let n = length basis.now.rows in let at = slice_index basis.now.rows in let j = by.0.position in
        let u = of_ratio F.value ratios.entry.0.now in let v = of_ratio F.value ratios.entry.1.now in
        IfOk result (λ o. o ≡ lex_cmp (suc end) (ratio_on by.0.side n at j u) (ratio_on by.1.side n at j v)) }
    ensures spilled { let n = length basis.now.rows in let at = slice_index basis.now.rows in let j = by.0.position in
        let u = of_ratio F.value ratios.entry.0.now in let v = of_ratio F.value ratios.entry.1.now in
        IfErr result (IsSpillOn F.value F.range end n at j by.0.side by.1.side u v) }
{
    let (left, right) = (ratios.0.coords, ratios.1.coords);
    let rows = basis.rows.as_slice();
    let first = compare_entries(by, (ratios.0.residual, ratios.1.residual), 0)?;
    if first.is_ne() {
        return Ok(first);
    }
    let mut from = 0;
    'rows: while let Some(k) = next_position(rows, (left, right), from, end) {
        let row = rows[k];
        let left_entry = left[k].neg();
        let right_entry = right[k].neg();
        let order = compare_entries(by, (left_entry, right_entry), row + 1)?;
        if order.is_ne() {
            return Ok(order);
        }
        from = row + 1;
    }
    Ok(Ordering::Equal)
}

/// Whether the perturbed ratio of one row at a position is less than that of another. Neither row is
/// in the basis, and both have a coordinate at the position that isn't 0. It takes no memory.
///
/// A spill names the division by which an entry of one of the ratios is made (quantity
/// `PerturbedRatio`), which overflows. It comes at an entry above 0 only where the two ratios agree
/// at every entry before it.
pub fn lex_less<F: Exact>(
    left: &Ratio<F>,
    right: &Ratio<F>,
    basis: &Basis,
    position: u32,
) -> Result<bool, Spill<F>>
    requires left { IsRatioAt F.value basis.now.rows position left.now }
    requires right { IsRatioAt F.value basis.now.rows position right.now }
    requires differ { left.now.row ≢ right.now.row }
    ensures less { let n = length basis.now.rows in let at = slice_index basis.now.rows in
        let u = of_ratio F.value left.now in let v = of_ratio F.value right.now in
        IfOk result (λ less. (rows : ℕ) → u.row < rows → v.row < rows
        → (IsTrue less ↔ (lex_cmp (suc rows) (ratio rows n at position u) (ratio rows n at position v) ≡ Less))) }
    ensures spill { let n = length basis.now.rows in let at = slice_index basis.now.rows in
        let u = of_ratio F.value left.now in let v = of_ratio F.value right.now in
        IfErr result (λ s. (rows : ℕ) → u.row < rows → v.row < rows
        → IsRatioSpill F.value F.range rows n at position u v s) }
{
    let by_left = divisor(left, basis, position);
    let by_right = divisor(right, basis, position);
    let end = left.row.min(right.row);
    let order = compare_before((left, right), (by_left, by_right), basis, end)?;
    if order.is_ne() {
        return Ok(order.is_lt());
    }
    if left.row < right.row {
        Ok(is_below(by_left.side))
    } else {
        Ok(!is_below(by_right.side))
    }
}
