//! Changes of slope at the inner knots of a smooth.

ghost use Rattle.std.specs.Prelude.{◌≡◌, ◌≢◌, ◌⊎◌, pos, ◌<◌, ◌≤◌, ◌+◌, ◌^◌, IfErr, IfOk, OnOk, length, map};
ghost use Rattle.std.specs.List.{range_with_len};
ghost use Rattle.std.specs.declared.cmp.Ordering.TheVariants.{Less};
ghost use Rattle.rational_laws.specs.Order.{cmp_ℚ};
ghost use Rattle.rational_laws.specs.Rational.{◌+ℚ◌, ◌-ℚ◌, inverse, whole};
ghost use Rattle.loss_model.specs.declared.spill.Spill.{Spill as Spilt};
ghost use Rattle.frac_core.specs.declared.frac128.Frac128.{Frac128 as Fraction128};
ghost use Rattle.frac_core.specs.Values.{exact};
ghost use Rattle.tv_penalty.specs.Operations.{IsSpillOf, NoneOverflows, Overflows, OverflowsFirst, knot_operations, knot_site as knot_site_of, operation_at, smooth_operations};
ghost use Rattle.tv_penalty.specs.Smoothings.{bend_of, bends_of};
ghost use Rattle.tv_penalty.specs.Views.{bend_seen, AreAscending};

use crate::PenaltyFault;
use frac_core::{Exact, Frac128, OpKind};
use loss_model::{Quantity, Site, Spill, minus_at, over_at, plus_at};
use std::alloc::Global;

/// The change of slope at an inner knot: factors of the values at the knot below it, at itself, and
/// at the knot above it.
#[derive(Clone, Copy, Drop)]
pub(crate) struct Bend {
    pub(crate) below: Frac128,
    pub(crate) at_knot: Frac128,
    pub(crate) above: Frac128,
}

// Where an operation at a knot of a smooth stands.
fn knot_site(smooth: u32, knot: u32, term: u32) -> Site
    ensures { result ≡ knot_site_of smooth knot term OpKind.Sub }
{
    Site {
        quantity: Quantity::PenaltyEntry,
        first: smooth,
        second: knot,
        third: 0,
        term,
        kind: OpKind::Sub,
    }
}

// The gap between two knots, or the spill where the difference overflows.
fn gap(site: Site, upper: Frac128, lower: Frac128) -> Result<Frac128, Spill<Frac128>>
    ensures exact { IfOk result (λ v. exact v ≡ exact upper -ℚ exact lower) }
    ensures fits { OnOk result (¬ (Overflows (operation_at site OpKind.Sub (exact upper) (exact lower)))) }
    ensures spill { IfErr result (IsSpillOf (operation_at site OpKind.Sub (exact upper) (exact lower))) }
{
    match minus_at(site, upper, lower) {
        Ok(gap) => Ok(gap),
        Err(spill) => Err(spill),
    }
}

// The reciprocal of a gap, or the spill where the division overflows.
fn reciprocal(site: Site, gap: Frac128) -> Result<Frac128, Spill<Frac128>>
    requires { exact gap ≢ whole (pos 0) }
    ensures exact { IfOk result (λ v. exact v ≡ inverse (exact gap)) }
    ensures fits { OnOk result (¬ (Overflows (operation_at site OpKind.Div (whole (pos 1)) (exact gap)))) }
    ensures spill { IfErr result (IsSpillOf (operation_at site OpKind.Div (whole (pos 1)) (exact gap))) }
{
    match over_at(site, Frac128::one(), gap) {
        Ok(quotient) => Ok(quotient),
        Err(spill) => Err(spill),
    }
}

// The sum, or the spill where it overflows.
fn sum(site: Site, left: Frac128, right: Frac128) -> Result<Frac128, Spill<Frac128>>
    ensures exact { IfOk result (λ v. exact v ≡ exact left +ℚ exact right) }
    ensures fits { OnOk result (¬ (Overflows (operation_at site OpKind.Add (exact left) (exact right)))) }
    ensures spill { IfErr result (IsSpillOf (operation_at site OpKind.Add (exact left) (exact right))) }
{
    match plus_at(site, left, right) {
        Ok(sum) => Ok(sum),
        Err(spill) => Err(spill),
    }
}

// The bend at a knot between two others.
fn bend_between(
    smooth: u32,
    knot: u32,
    below: Frac128,
    at: Frac128,
    above: Frac128,
) -> Result<Bend, Spill<Frac128>>
    requires rising { cmp_ℚ (exact below) (exact at) ≡ Less }
    requires rising_on { cmp_ℚ (exact at) (exact above) ≡ Less }
    ensures exact { IfOk result (λ b. bend_seen b ≡ bend_of (exact below) (exact at) (exact above)) }
    ensures fits { OnOk result (NoneOverflows (knot_operations smooth knot (exact below) (exact at) (exact above))) }
    ensures spill { IfErr result (OverflowsFirst (knot_operations smooth knot (exact below) (exact at) (exact above))) }
{
    let gap_below = gap(knot_site(smooth, knot, 1), at, below)?;
    let gap_above = gap(knot_site(smooth, knot, 2), above, at)?;
    let slope_below = reciprocal(knot_site(smooth, knot, 3), gap_below)?;
    let slope_above = reciprocal(knot_site(smooth, knot, 4), gap_above)?;
    let both = sum(knot_site(smooth, knot, 5), slope_below, slope_above)?;
    Ok(Bend {
        below: slope_below,
        at_knot: both.neg(),
        above: slope_above,
    })
}

/// The bends at the inner knots of the smooth of this number, or the first operation that overflows.
pub(crate) fn bends(
    alloc: Global,
    smooth: u32,
    knots: &[Frac128],
) -> Result<Vec<Bend>, PenaltyFault>
    requires ascending { AreAscending knots.now }
    requires few { length knots.now < 2 ^ 32 }
    ensures exact { IfOk result (λ bends. map bend_seen bends.items ≡ bends_of knots.now) }
    ensures fits { OnOk result (NoneOverflows (smooth_operations smooth knots.now)) }
    ensures fault { IfErr result (λ e. (e ≡ PenaltyFault.OutOfMemory)
        ⊎ ((s : Spilt Fraction128) × (e ≡ PenaltyFault.Overflow s)
        × OverflowsFirst (smooth_operations smooth knots.now) s)) }
{
    let mut bends = Vec::new(alloc);
    for lower in 0..knots.len().saturating_sub(2) {
        let knot = lower as u32 + 1;
        match bend_between(
            smooth,
            knot,
            knots[lower],
            knots[lower + 1],
            knots[lower + 2],
        ) {
            Ok(bend) => bends.push(bend)?,
            Err(spill) => return Err(PenaltyFault::Overflow(spill)),
        }
    }
    Ok(bends)
}
