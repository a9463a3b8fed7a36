//! The rows of a design.

ghost use Rattle.std.specs.Prelude.{◌≡◌, ◌<◌, ◌≤◌, ◌+◌, ◌-◌, ◌^◌, ◌⊎◌, pos, All, IfOk, IfErr, OnOk, length, map};
ghost use Rattle.rational_laws.specs.Rational.{◌*ℚ◌, whole};
ghost use Rattle.data_frame.specs.Views.{lent_column};
ghost use Rattle.loss_model.specs.declared.spill.Spill.{Spill as Spilt};
ghost use Rattle.loss_model.specs.Spill.{IsOperation};
ghost use Rattle.formula_parser.specs.Held.{ariths_of};
ghost use Rattle.design_matrix.specs.Cells.{column_of, number_at};
ghost use Rattle.design_matrix.specs.Computed.{CanEvaluate, less, offsets_at};
ghost use Rattle.design_matrix.specs.Designs.{AllFit, OverflowsFirst, OverflowsInColumn, OverflowsInResponse, OverflowsInRow, ResponseFits, RowFits, exact_row, response_at, row_of};
ghost use Rattle.design_matrix.specs.Lists.{each};
ghost use Rattle.design_matrix.specs.Parts.{factors};
ghost use Rattle.design_matrix.specs.Products.{Fits, product};
ghost use Rattle.design_matrix.specs.Views.{columns_seen, part_seen, weights_seen};
ghost use Rattle.frac_core.specs.declared.frac128.Frac128.{Frac128 as Fraction128};
ghost use Rattle.frac_core.specs.Values.{exact, value};

use crate::cells::number_of;
use crate::coded::Coder;
use crate::computed::{check_ariths, expressions_in, offset_values};
use crate::part::Part;
use crate::used::UsedColumns;
use crate::{DesignFault, DesignRow};
use data_frame::Column;
use frac_core::{Exact, Frac128, List, OpKind};
use loss_model::{Quantity, Site, Spill, minus_at, times_at};
use std::alloc::Global;

// A product with one more factor; a single factor takes no operation.
fn next_product(site: Site, product: Frac128, factor: Frac128) -> Result<Frac128, Spill<Frac128>>
    requires { site.term ≡ 0 → exact product ≡ whole (pos 1) }
    ensures exact { IfOk result (λ v. exact v ≡ exact product *ℚ exact factor) }
    ensures spill { IfErr result (λ s. (1 ≤ site.term)
        × IsOperation value (2 ^ 127 - 1) (record site { kind = OpKind.Mul }) (exact product) (exact factor) s) }
{
    if site.term == 0 {
        return Ok(factor);
    }
    times_at(site, product, factor)
}

// The product of a column's parts at a place, of the record and the column of these numbers. A part that has
// no entry there stands in no record that is asked for.
fn product_of(
    rec: u32,
    column: u32,
    parts: &[Part<'_, '_>],
    place: usize,
) -> Result<Frac128, DesignFault>
    requires { length parts.now < 2 ^ 32 }
    ensures exact { IfOk result (λ v. exact v ≡ product (factors (map part_seen parts.now) place)) }
    ensures fits { OnOk result (Fits (factors (map part_seen parts.now) place)) }
    ensures fault { IfErr result (λ e. (e ≡ DesignFault.OutOfMemory)
        ⊎ ((s : Spilt Fraction128) × (e ≡ DesignFault.Overflow s)
        × OverflowsInColumn (map part_seen parts.now) place rec column s)) }
{
    let mut product = Frac128::one();
    for (term, part) in parts.iter().enumerate() {
        let factor = part.entry(place)?;
        let site = Site {
            quantity: Quantity::DesignEntry,
            first: rec,
            second: column,
            third: 0,
            term: term as u32,
            kind: OpKind::Mul,
        };
        match next_product(site, product, factor) {
            Ok(next) => product = next,
            Err(spill) => return Err(DesignFault::Overflow(spill)),
        }
    }
    Ok(product)
}

/// The entries of the row at a place, of the record of this number.
pub(crate) fn entries_of(
    alloc: Global,
    rec: u32,
    columns: &[Vec<Part<'_, '_>>],
    place: usize,
) -> Result<Vec<Frac128>, DesignFault>
    requires few { length columns.now < 2 ^ 32 }
    requires short { All (λ parts. length parts.items < 2 ^ 32) columns.now }
    ensures exact { IfOk result (λ x. map exact x.items
        ≡ map (λ column. product (factors column place)) (columns_seen columns.now)) }
    ensures fits { OnOk result (RowFits (columns_seen columns.now) place) }
    ensures fault { IfErr result (λ e. (e ≡ DesignFault.OutOfMemory)
        ⊎ ((s : Spilt Fraction128) × (e ≡ DesignFault.Overflow s)
        × OverflowsInRow (columns_seen columns.now) place rec s)) }
{
    let mut entries = Vec::with_capacity(alloc, columns.len())?;
    for (column, parts) in columns.iter().enumerate() {
        match product_of(rec, column as u32, parts, place) {
            Ok(entry) => entries.push(entry)?,
            Err(fault) => return Err(fault),
        }
    }
    Ok(entries)
}

// A response less the values of the offsets in turn, of the record of this number.
fn response_less(
    rec: u32,
    response: Frac128,
    offsets: &[Frac128],
) -> Result<Frac128, Spill<Frac128>>
    ensures exact { IfOk result (λ y. exact y ≡ less (exact response) (map exact offsets.now)) }
    ensures fits { OnOk result (ResponseFits (exact response) (map exact offsets.now)) }
    ensures spill { IfErr result (OverflowsInResponse (exact response) (map exact offsets.now) rec) }
{
    let mut left = response;
    for (place, offset) in offsets.iter().enumerate() {
        let site = Site {
            quantity: Quantity::OffsetResponse,
            first: rec,
            second: 0,
            third: 0,
            term: u32::try_from(place.saturating_add(1)).unwrap_or(u32::MAX),
            kind: OpKind::Sub,
        };
        match minus_at(site, left, *offset) {
            Ok(next) => left = next,
            Err(spill) => return Err(spill),
        }
    }
    Ok(left)
}

// The response of a record in which no arithmetic overflows.
fn response_of(
    alloc: Global,
    coder: &Coder<'_>,
    response: &Column<'_>,
    index: u32,
) -> Result<Frac128, DesignFault>
    requires numbered { index + 1 < 2 ^ 32 }
    requires usable { All CanEvaluate coder.now.model.now.offsets }
    ensures exact { IfOk result (λ y. exact y ≡ response_at coder.now.frame.now (lent_column response.now) coder.now.model.now.offsets index) }
    ensures fits { OnOk result (ResponseFits (number_at (lent_column response.now) index) (offsets_at coder.now.frame.now coder.now.model.now.offsets index)) }
    ensures fault { IfErr result (λ e. (e ≡ DesignFault.OutOfMemory)
        ⊎ ((s : Spilt Fraction128) × (e ≡ DesignFault.Overflow s)
        × OverflowsInResponse (number_at (lent_column response.now) index) (offsets_at coder.now.frame.now coder.now.model.now.offsets index) (index + 1) s)) }
{
    let offsets = coder.model.offsets.as_slice();
    let values = offset_values(alloc, coder.frame, offsets, index)?;
    match response_less(index + 1, number_of(response, index), &values) {
        Ok(y) => Ok(y),
        Err(spill) => Err(DesignFault::Overflow(spill)),
    }
}

/// The rows of a coder's records.
pub(crate) fn design_rows(
    alloc: Global,
    coder: &Coder<'_>,
    used: &UsedColumns<'_>,
    columns: &[Vec<Part<'_, '_>>],
) -> Result<Vec<DesignRow>, DesignFault>
    requires numbered { All (λ i. i + 1 < 2 ^ 32) coder.now.records.now }
    requires response { lent_column used.now.response ≡ column_of coder.now.frame.now coder.now.model.now.response }
    requires usable { All CanEvaluate (ariths_of coder.now.model.now) }
    requires few { length columns.now < 2 ^ 32 }
    requires short { All (λ parts. length parts.items < 2 ^ 32) columns.now }
    ensures exact { IfOk result (λ rows. map exact_row rows.items
        ≡ each (row_of coder.now.frame.now (lent_column used.now.response) coder.now.model.now.offsets (weights_seen used.now.weights)
        (columns_seen columns.now)) 0 coder.now.records.now) }
    ensures fits { OnOk result (AllFit coder.now.frame.now coder.now.model.now (columns_seen columns.now) coder.now.records.now) }
    ensures fault { IfErr result (λ e. (e ≡ DesignFault.OutOfMemory)
        ⊎ ((s : Spilt Fraction128) × (e ≡ DesignFault.Overflow s)
        × OverflowsFirst coder.now.frame.now coder.now.model.now (columns_seen columns.now) coder.now.records.now s)) }
{
    let ariths = expressions_in(alloc, coder.model)?;
    let records = coder.records;
    let mut rows = Vec::with_capacity(alloc, records.len())?;
    for (place, index) in records.iter().enumerate() {
        let rec = *index + 1;
        check_ariths(alloc, coder.frame, &ariths, *index)?;
        let y = response_of(alloc, coder, &used.response, *index)?;
        let entries = entries_of(alloc, rec, columns, place)?;
        rows.push(DesignRow {
            rec,
            x: List::from(entries),
            y,
            weight: used.weights.weight(*index),
        })?;
    }
    Ok(rows)
}
