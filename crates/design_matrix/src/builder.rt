//! From a table and a formula to their design.

ghost use Rattle.std.specs.Prelude.{◌≡◌, ◌≤◌, ◌<◌, ◌+◌, ◌^◌, ◌⊎◌, None, All, IfErr, IfOk, OnOk, length, map, option_copied};
ghost use Rattle.frac_core.specs.Limits.{most_columns};
ghost use Rattle.data_frame.specs.Views.{lent_column};
ghost use Rattle.design_matrix.specs.Cells.{column_of};
ghost use Rattle.formula_parser.specs.Held.{IsHeld, ariths_of};
ghost use Rattle.design_matrix.specs.CodedVariable.{coded_terms};
ghost use Rattle.design_matrix.specs.Computed.{CanEvaluate};
ghost use Rattle.design_matrix.specs.Faults.{HasCause, HasDesign, HasLateCause, IsDesign, IsOverflow, lacks_columns, late_fault};
ghost use Rattle.design_matrix.specs.Parts.{column_name, columns_in};
ghost use Rattle.design_matrix.specs.Shapes.{IsShaped};
ghost use Rattle.design_matrix.specs.Views.{columns_seen, terms_seen, weights_seen};
ghost use Rattle.design_matrix.specs.Widths.{IsUsable};

use crate::checks::check_terms;
use crate::coded::{CodedVariable, Coder};
use crate::kept::kept_records;
use crate::part::Part;
use crate::parts::{column_count, design_columns, name_of};
use crate::rows::design_rows;
use crate::used::{UsedColumns, used_columns};
use crate::{Design, DesignFault};
use contrasts::Coding;
use data_frame::Frame;
use formula_parser::Formula;
use frac_core::{List, MOST_COLUMNS, Text};
use std::alloc::{AllocError, Global};

// What the columns are called.
fn names_of(alloc: Global, columns: &[Vec<Part<'_, '_>>]) -> Result<Vec<Text>, AllocError>
    ensures { IfOk result (λ names. names.items ≡ map column_name (columns_seen columns.now)) }
{
    let mut names = Vec::with_capacity(alloc, columns.len())?;
    for parts in columns {
        names.push(name_of(alloc, parts)?)?;
    }
    Ok(names)
}

// Whether a formula has neither intercept nor terms nor smooths.
fn has_no_columns(model: &Formula) -> bool
    ensures { result ≡ lacks_columns model.now }
{
    if model.intercept {
        return false;
    }
    if !model.terms.as_slice().is_empty() {
        return false;
    }
    model.smooths.as_slice().is_empty()
}

// The design of coded terms.
fn design_from(
    alloc: Global,
    coder: &Coder<'_>,
    used: &UsedColumns<'_>,
    terms: &[Vec<CodedVariable<'_>>],
) -> Result<Design, DesignFault>
    requires numbered { All (λ i. i + 1 < 2 ^ 32) coder.now.records.now }
    requires fewer { length coder.now.records.now ≤ coder.now.frame.now.records }
    requires counted { coder.now.frame.now.records < 2 ^ 32 }
    requires response { lent_column used.now.response ≡ column_of coder.now.frame.now coder.now.model.now.response }
    requires coded { terms_seen terms.now ≡ coded_terms coder.now.frame.now coder.now.model.now coder.now.contrasts coder.now.records.now }
    requires usable { All (λ vs. All IsUsable vs.items) terms.now }
    requires few { length (columns_in coder.now.model.now.intercept (terms_seen terms.now)) ≤ most_columns }
    requires short { All (λ vs. length vs.items < 2 ^ 32) terms.now }
    requires held { All CanEvaluate (ariths_of coder.now.model.now) }
    ensures design { IfOk result (HasDesign coder.now.frame.now coder.now.model.now coder.now.contrasts
        (weights_seen used.now.weights) coder.now.records.now) }
    ensures fault { IfErr result (λ e. (e ≡ DesignFault.OutOfMemory)
        ⊎ IsOverflow coder.now.frame.now coder.now.model.now coder.now.contrasts coder.now.records.now e) }
{
    let columns = design_columns(alloc, coder.model.intercept, terms)?;
    let names = names_of(alloc, &columns)?;
    let rows = design_rows(alloc, coder, used, &columns)?;
    let dropped = coder.frame.records() - coder.records.len() as u32;
    Ok(Design {
        names: List::from(names),
        rows: List::from(rows),
        dropped,
    })
}

// The design of the records that a coder keeps.
fn build_kept(
    alloc: Global,
    coder: &Coder<'_>,
    used: &UsedColumns<'_>,
) -> Result<Design, DesignFault>
    requires numbered { All (λ i. i + 1 < 2 ^ 32) coder.now.records.now }
    requires fewer { length coder.now.records.now ≤ coder.now.frame.now.records }
    requires counted { coder.now.frame.now.records < 2 ^ 32 }
    requires response { lent_column used.now.response ≡ column_of coder.now.frame.now coder.now.model.now.response }
    requires short { All (λ t. length t.variables < 2 ^ 32) coder.now.model.now.terms }
    requires held { All CanEvaluate (ariths_of coder.now.model.now) }
    ensures sound { OnOk result (late_fault coder.now.frame.now coder.now.model.now coder.now.contrasts coder.now.records.now ≡ None) }
    ensures design { IfOk result (HasDesign coder.now.frame.now coder.now.model.now coder.now.contrasts
        (weights_seen used.now.weights) coder.now.records.now) }
    ensures fault { IfErr result (HasLateCause coder.now.frame.now coder.now.model.now coder.now.contrasts coder.now.records.now) }
{
    let terms = coder.terms(alloc)?;
    check_terms(alloc, &terms)?;
    if has_no_columns(coder.model) {
        return Err(DesignFault::NoColumns);
    }
    let count = column_count(coder.model.intercept, &terms);
    if count > u64::from(MOST_COLUMNS) {
        return Err(DesignFault::TooManyColumns);
    }
    match design_from(alloc, coder, used, &terms) {
        Ok(design) => Ok(design),
        Err(fault) => Err(fault),
    }
}

/// Makes the design of a table by a formula and weights.
///
/// The columns that are used are the response, the weights, those of the variables by terms and then
/// by variables, where an arithmetic has those of its names, and those of the offsets and of the
/// smooths. A record is kept where none of their cells is missing and its weight isn't 0; the others
/// are counted. Without weights each weight is 1. A response is less by the value of each offset in
/// turn.
///
/// Want of memory may come at any step. Each other fault comes exactly where it is the first, in the
/// order of `DesignFault`, except that `ArithNotNumeric` comes behind `WeightNotNumeric`: it names the
/// first factor in an arithmetic, by terms, variables and names, and then by offsets; `NumberTooWide`
/// is that of the first used column with one, and `NegativeWeight` that of the first record with one,
/// kept or not. An overflow is the first by record, and in a record by the arithmetics, equal ones
/// once, then in the response, and then in the entries by column and by the number of their factors.
/// The table, the formula and the weights have a design exactly where none comes.
///
/// Each arithmetic of the formula holds the text, the names and the code of one arithmetic that can be
/// evaluated, and its names are columns of the table, as a formula's are that was read for its names.
///
/// A design has a row, in each row an entry for each name and a weight above 0, and at most 128
/// columns; where the formula has no smooths it has a column.
///
/// A name in the formula that is no column of the table counts as a factor whose cells are all
/// missing.
pub fn build(
    alloc: Global,
    frame: &Frame,
    model: &Formula,
    coding: Coding,
    weights: Option<&str>,
) -> Result<Design, DesignFault>
    requires short { All (λ t. length t.variables < 2 ^ 32) model.now.terms }
    requires held { All (IsHeld frame.now.names) (ariths_of model.now) }
    ensures design { IfOk result (IsDesign frame.now model.now coding (option_copied weights.entry)) }
    ensures shape { IfOk result (IsShaped model.now) }
    ensures fault { IfErr result (HasCause frame.now model.now coding (option_copied weights.entry)) }
{
    let used = used_columns(alloc, frame, model, weights)?;
    let records = kept_records(alloc, &used, frame.records())?;
    let kept = records.as_slice();
    if kept.is_empty() {
        return Err(DesignFault::NoRows);
    }
    let coder = Coder {
        frame,
        model,
        contrasts: coding,
        records: kept,
    };
    match build_kept(alloc, &coder, &used) {
        Ok(design) => Ok(design),
        Err(fault) => Err(fault),
    }
}
