//! The smooths of a formula, each with its knots and the bends that are penalised.

ghost use Rattle.std.specs.Prelude.{◌≡◌, ◌⊎◌, ◌≤◌, ◌<◌, ◌+◌, ◌^◌, [], None, Some, IfErr, IfOk, OnOk, length, map, if◌then◌else◌};
ghost use Rattle.tv_penalty.specs.Faults.{AreSound, IsFirstFault, IsSoundSmooth, IsSmoothFault};
ghost use Rattle.tv_penalty.specs.Operations.{NoneOverflows, OverflowsFirst, smooth_operations};
ghost use Rattle.tv_penalty.specs.Smoothings.{bends_of, has_rows as has_rows_of, part_of, with_columns as with_columns_of};
ghost use Rattle.tv_penalty.specs.Views.{AreAscending, bend_seen, part_seen, setting_seen};
ghost use Rattle.loss_model.specs.declared.spill.Spill.{Spill as Spilt};
ghost use Rattle.frac_core.specs.declared.frac128.Frac128.{Frac128 as Fraction128};
ghost use Rattle.frac_core.specs.Limits.{most_columns};
ghost use Rattle.frac_core.specs.Values.{exact};

use crate::PenaltyFault;
use crate::bends::{Bend, bends};
use crate::knot::smooth_knots;
use data_frame::Frame;
use design_matrix::DesignRow;
use formula_parser::Smooth;
use frac_core::{Exact, Frac128, MOST_COLUMNS};
use std::alloc::Global;

/// A smooth with its knots and its penalty rows.
#[derive(Drop)]
pub(crate) struct Part<'a> {
    pub(crate) smooth: &'a Smooth,
    pub(crate) cells: &'a [Option<Frac128>],
    pub(crate) knots: Vec<Frac128>,
    pub(crate) bends: Vec<Bend>,
}

/// What stands at the knots that have a column: at all, or beside an intercept at all but the first.
pub(crate) fn with_columns(intercept: bool, items: &[Frac128]) -> &[Frac128]
    ensures { result.now ≡ with_columns_of intercept items.now }
{
    if !intercept {
        return items;
    }
    match items.split_first() {
        Some((_, rest)) => rest,
        None => items,
    }
}

// Whether a smooth has penalty rows.
fn has_rows(penalised: bool, lambda: Frac128) -> bool
    ensures { result ≡ has_rows_of penalised (exact lambda) }
{
    penalised && Frac128::zero().compare(lambda).is_lt()
}

// The bends of a smooth of this number that are penalised.
fn penalised_bends(
    alloc: Global,
    penalised: bool,
    number: u32,
    knots: &[Frac128],
) -> Result<Vec<Bend>, PenaltyFault>
    requires ascending { AreAscending knots.now }
    requires few { length knots.now < 2 ^ 32 }
    ensures exact { IfOk result (λ bends. map bend_seen bends.items ≡ (if penalised then bends_of knots.now else [])) }
    ensures fits { OnOk result (NoneOverflows (if penalised then smooth_operations number knots.now else [])) }
    ensures fault { IfErr result (λ e. (e ≡ PenaltyFault.OutOfMemory)
        ⊎ ((s : Spilt Fraction128) × (e ≡ PenaltyFault.Overflow s)
        × OverflowsFirst (if penalised then smooth_operations number knots.now else []) s)) }
{
    if !penalised {
        return Ok(Vec::new(alloc));
    }
    bends(alloc, number, knots)
}

/// What smooths are looked at by.
#[derive(Clone, Copy)]
pub(crate) struct Setting<'a> {
    /// Penalty rows are asked for.
    pub(crate) penalised: bool,
    /// The model has an intercept.
    pub(crate) intercept: bool,
    pub(crate) frame: &'a Frame,
    pub(crate) rows: &'a [DesignRow],
}

impl<'a> Setting<'a> {
    // The smooth of this number, before whose columns so many stand.
    fn part(
        &self,
        alloc: Global,
        number: u32,
        before: usize,
        smooth: &'a Smooth,
    ) -> Result<Part<'a>, PenaltyFault>
        requires { before < 2 ^ 63 }
        ensures seen { IfOk result (λ p. part_seen p ≡ part_of self.now.penalised self.now.frame.now self.now.rows.now smooth.now) }
        ensures many { IfOk result (λ p. 3 ≤ length p.knots.items) }
        ensures few { IfOk result (λ p. before + length (with_columns_of self.now.intercept p.knots.items) ≤ most_columns) }
        ensures sound { OnOk result (IsSoundSmooth (setting_seen self.now) number before smooth.now) }
        ensures fault { IfErr result (λ e. (e ≡ PenaltyFault.OutOfMemory) ⊎ IsSmoothFault (setting_seen self.now) number before smooth.now e) }
    {
        let found = smooth_knots(alloc, self.frame, self.rows, smooth)?;
        let columns = with_columns(self.intercept, &found.knots).len();
        if before + columns > MOST_COLUMNS as usize {
            return Err(PenaltyFault::TooManyColumns);
        }
        let penalised = has_rows(self.penalised, smooth.lambda);
        let bends = penalised_bends(alloc, penalised, number, &found.knots)?;
        Ok(Part {
            smooth,
            cells: found.cells,
            knots: found.knots,
            bends,
        })
    }

    /// The smooths of a formula whose design has so many columns.
    pub(crate) fn parts(
        &self,
        alloc: Global,
        width: usize,
        smooths: &'a [Smooth],
    ) -> Result<Vec<Part<'a>>, PenaltyFault>
        requires { width < 2 ^ 63 }
        ensures seen { IfOk result (λ ps. map part_seen ps.items ≡ map (part_of self.now.penalised self.now.frame.now self.now.rows.now) smooths.now) }
        ensures sound { OnOk result (AreSound (setting_seen self.now) 0 width smooths.now) }
        ensures fault { IfErr result (λ e. (e ≡ PenaltyFault.OutOfMemory) ⊎ IsFirstFault (setting_seen self.now) 0 width smooths.now e) }
    {
        let mut parts = Vec::new(alloc);
        let mut columns = width;
        for (number, smooth) in smooths.iter().enumerate() {
            let part = self.part(alloc, number as u32, columns, smooth)?;
            columns += with_columns(self.intercept, &part.knots).len();
            parts.push(part)?;
        }
        Ok(parts)
    }
}
