//! The row of a predicted record.

ghost use Rattle.std.specs.Prelude.{◌≡◌, ◌⊎◌, ◌<◌, ◌≤◌, ◌+◌, ◌-◌, ◌^◌, None, Some, Contains, All, IfErr, IfOk, OnOk, Option as option, length, map};
ghost use Rattle.std.specs.Cmp.{IsTotalOrder};
ghost use Rattle.std.specs.List.{list_any};
ghost use Rattle.std.specs.Ordering.{is_eq};
ghost use Rattle.data_frame.specs.Records.{Text as text};
ghost use Rattle.design_matrix.specs.Cells.{column_of};
ghost use Rattle.formula_parser.specs.Held.{IsHeld, ariths_of};
ghost use Rattle.design_matrix.specs.CodedVariable.{coded_terms};
ghost use Rattle.design_matrix.specs.Computed.{CanEvaluate};
ghost use Rattle.design_matrix.specs.Designs.{OverflowsInRow, RowFits};
ghost use Rattle.design_matrix.specs.Faults.{IsDesign, terms_fault};
ghost use Rattle.design_matrix.specs.Lists.{first_some};
ghost use Rattle.design_matrix.specs.Parts.{columns_of, factors};
ghost use Rattle.design_matrix.specs.Predicted.{HasRowCause, IsPredictRow, is_level as is_level_of, kept_in as kept_in_design, lacks_entry, predicted, unknown_fault, unknown_level};
ghost use Rattle.design_matrix.specs.Products.{product};
ghost use Rattle.frac_core.specs.Limits.{most_columns};
ghost use Rattle.frac_core.specs.declared.frac128.Frac128.{Frac128 as Fraction128};
ghost use Rattle.frac_core.specs.Values.{exact};
ghost use Rattle.loss_model.specs.declared.spill.Spill.{Spill as Spilt};

use crate::cells::{cell, column};
use crate::coded::{Coder, print_name};
use crate::computed::{check_ariths, expressions_in, offset_values};
use crate::levels::{Cell, sorted_levels};
use crate::parts::design_columns;
use crate::rows::entries_of;
use crate::{Design, DesignFault, PredictRow};
use contrasts::Coding;
use data_frame::{Column, Frame};
use formula_parser::{Formula, Variable};
use frac_core::{Frac128, List};
use std::alloc::{AllocError, Global};

// The records of a design's rows, counted from 0, with room for another one of its table.
fn kept_in(alloc: Global, frame: &Frame, design: &Design) -> Result<Vec<u32>, AllocError>
    ensures kept { IfOk result (λ records. records.items ≡ kept_in_design design.now) }
    ensures counted { frame.now.records < 2 ^ 32 }
{
    let rows = design.rows.as_slice();
    let mut records = Vec::with_capacity(alloc, frame.records() as usize)?;
    for row in rows {
        records.push(row.rec.saturating_sub(1))?;
    }
    Ok(records)
}

// Whether a cell is one of these levels.
fn is_among<T: Cell>(levels: &[&T], wanted: &T) -> bool
    ensures { result ≡ list_any (λ level. is_eq (T.order level.now wanted.now)) levels.now }
{
    levels.iter().any(|level| level.compare(wanted).is_eq())
}

// Whether the cell of a record is a level of the kept ones, or missing.
fn is_level<T: Cell>(
    alloc: Global,
    cells: &[Option<T>],
    kept: &[u32],
    index: u32,
) -> Result<bool, AllocError>
    requires { IsTotalOrder T.order }
    ensures { IfOk result (λ b. b ≡ is_level_of T.order cells.now kept.now index) }
{
    let Some(wanted) = cell(cells, index) else {
        return Ok(true);
    };
    let levels = sorted_levels(alloc, cells, kept)?;
    Ok(is_among(&levels, wanted))
}

// Whether a variable is a factor of which the cell of a record is no level of the kept ones.
fn is_unknown(
    alloc: Global,
    frame: &Frame,
    variable: &Variable,
    kept: &[u32],
    index: u32,
) -> Result<bool, AllocError>
    ensures { IfOk result (λ b. b ≡ lacks_entry frame.now kept.now index variable.now) }
{
    if variable.arith.is_some() {
        return Ok(false);
    }
    match column(frame, variable.name.as_str()) {
        Column::Factor(cells) => Ok(!is_level(alloc, cells, kept, index)?),
        Column::Numbers(cells) => {
            if !variable.as_factor {
                return Ok(false);
            }
            Ok(!is_level(alloc, cells, kept, index)?)
        }
        Column::TooWide { .. } => Ok(false),
    }
}

// Refuses a record with a cell that is no level of the kept ones: the first of these variables.
fn check_variables(
    alloc: Global,
    frame: &Frame,
    variables: &[Variable],
    kept: &[u32],
    index: u32,
) -> Result<(), DesignFault>
    requires { index + 1 < 2 ^ 32 }
    ensures sound { OnOk result (first_some (unknown_fault frame.now kept.now index) variables.now ≡ None) }
    ensures fault { IfErr result (λ e. (e ≡ DesignFault.OutOfMemory)
        ⊎ (first_some (unknown_fault frame.now kept.now index) variables.now ≡ Some e)) }
{
    for variable in variables {
        if is_unknown(alloc, frame, variable, kept, index)? {
            return Err(DesignFault::UnknownLevel {
                rec: index + 1,
                factor: print_name(alloc, variable.as_factor, variable.name.as_str())?,
            });
        }
    }
    Ok(())
}

// The same of all variables, by terms and then by variables.
fn check_levels(
    alloc: Global,
    frame: &Frame,
    model: &Formula,
    kept: &[u32],
    index: u32,
) -> Result<(), DesignFault>
    requires { index + 1 < 2 ^ 32 }
    ensures sound { OnOk result (unknown_level frame.now model.now kept.now index ≡ None) }
    ensures fault { IfErr result (λ e. (e ≡ DesignFault.OutOfMemory)
        ⊎ (unknown_level frame.now model.now kept.now index ≡ Some e)) }
{
    let terms = model.terms.as_slice();
    for term in terms {
        check_variables(alloc, frame, term.variables.as_slice(), kept, index)?;
    }
    Ok(())
}

// The entries of the last of a coder's records, which has this number.
fn last_entries(alloc: Global, coder: &Coder<'_>, rec: u32) -> Result<Vec<Frac128>, DesignFault>
    requires some { 0 < length coder.now.records.now }
    requires counted { length coder.now.records.now < 2 ^ 32 }
    requires short { All (λ t. length t.variables < 2 ^ 32) coder.now.model.now.terms }
    requires usable { terms_fault (coded_terms coder.now.frame.now coder.now.model.now coder.now.contrasts coder.now.records.now) ≡ None }
    requires few { length (columns_of coder.now.frame.now coder.now.model.now coder.now.contrasts coder.now.records.now) ≤ most_columns }
    requires held { All CanEvaluate (ariths_of coder.now.model.now) }
    ensures exact { let n = length coder.now.records.now in IfOk result (λ x. map exact x.items
        ≡ map (λ column. product (factors column (n - 1))) (columns_of coder.now.frame.now coder.now.model.now coder.now.contrasts coder.now.records.now)) }
    ensures fits { let n = length coder.now.records.now in
        OnOk result (RowFits (columns_of coder.now.frame.now coder.now.model.now coder.now.contrasts coder.now.records.now) (n - 1)) }
    ensures fault { let n = length coder.now.records.now in IfErr result (λ e. (e ≡ DesignFault.OutOfMemory)
        ⊎ ((s : Spilt Fraction128) × (e ≡ DesignFault.Overflow s)
        × OverflowsInRow (columns_of coder.now.frame.now coder.now.model.now coder.now.contrasts coder.now.records.now) (n - 1) rec s)) }
{
    let terms = coder.terms(alloc)?;
    let columns = design_columns(alloc, coder.model.intercept, &terms)?;
    let entries = entries_of(alloc, rec, &columns, coder.records.len() - 1)?;
    Ok(entries)
}

/// The row of a predicted record: the entry of each column of the design by the levels of the kept records,
/// and the values of the offsets.
///
/// The record is one that `predicted_records` gives, the design was built from the table, the formula and the
/// coding, with whatever weights, and the formula has no smooth; its arithmetics are as `build` asks. Want of
/// memory may come at any step. `UnknownLevel` comes exactly where a factor's cell is
/// no level of the kept records, with the first such variable by terms and then by variables; and else
/// `Overflow` exactly where an operation overflows: the first by the arithmetics, equal ones once, and then by
/// column and by the number of its factors.
pub fn predict_row(
    alloc: Global,
    frame: &Frame,
    model: &Formula,
    coding: Coding,
    design: &Design,
    rec: u32,
) -> Result<PredictRow, DesignFault>
    requires short { All (λ t. length t.variables < 2 ^ 32) model.now.terms }
    requires held { All (IsHeld frame.now.names) (ariths_of model.now) }
    requires built { (weights : option text) × IsDesign frame.now model.now coding weights design.now }
    requires plain { length model.now.smooths ≡ 0 }
    requires asked { Contains (predicted frame.now model.now) rec }
    ensures row { IfOk result (IsPredictRow frame.now model.now coding (kept_in_design design.now) rec) }
    ensures wide { IfOk result (λ row. length row.x ≡ length design.now.names) }
    ensures fault { IfErr result (HasRowCause frame.now model.now coding (kept_in_design design.now) rec) }
{
    let index = rec - 1;
    let mut records = kept_in(alloc, frame, design)?;
    check_levels(alloc, frame, model, &records, index)?;
    records.push(index)?;
    let coder = Coder {
        frame,
        model,
        contrasts: coding,
        records: records.as_slice(),
    };
    let ariths = expressions_in(alloc, model)?;
    check_ariths(alloc, frame, &ariths, index)?;
    let offsets = offset_values(alloc, frame, model.offsets.as_slice(), index)?;
    let x = last_entries(alloc, &coder, rec)?;
    Ok(PredictRow {
        rec,
        x: List::from(x),
        offsets: List::from(offsets),
    })
}
