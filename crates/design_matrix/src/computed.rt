//! What the arithmetics of a formula come to in the records of a table.

ghost use Rattle.std.specs.Prelude.{◌≡◌, ◌⊎◌, ◌<◌, ◌+◌, ◌^◌, ◌++◌, [], All, None, Some, IfErr, IfOk, OnOk, bytes_eq, length, map, pos, slice_get, slice_index_or, take, List as list};
ghost use Rattle.std.specs.List.{flat_map, list_any};
ghost use Rattle.std.proofs.Props.{props};
ghost use Rattle.rational_laws.specs.Rational.{whole, ℚ_set};
ghost use Rattle.frac_core.specs.declared.arith.Arith.{Arith as Held};
ghost use Rattle.frac_core.specs.declared.frac128.Frac128.{Frac128 as Fraction128};
ghost use Rattle.frac_core.specs.Values.{exact};
ghost use Rattle.formula_arith.specs.Evaluations.{NoneOverflows};
ghost use Rattle.formula_parser.specs.Held.{ariths_of, term_ariths};
ghost use Rattle.loss_model.specs.declared.spill.Spill.{Spill as Spilt};
ghost use Rattle.design_matrix.specs.Cells.{column_of, number_at};
ghost use Rattle.design_matrix.specs.Computed.{CanEvaluate, HasArithCause, arith_at, arith_operations, expressions, named_values, offsets_at, texts_once, with_text};
ghost use Rattle.design_matrix.specs.Designs.{ArithsFit, OverflowsInAriths};
ghost use Rattle.design_matrix.specs.Faults.{refusal};

use crate::DesignFault;
use crate::cells::{column, number_of};
use data_frame::Frame;
use formula_arith::{ArithFault, evaluate};
use formula_parser::{Formula, Term};
use frac_core::{Arith, Frac128, Text};
use loss_model::{Quantity, Site, Spill};
use std::alloc::{AllocError, Global};

// The numbers of a record in the columns of these names, and 0 where there are none.
fn numbers_in(
    alloc: Global,
    frame: &Frame,
    names: &[Text],
    index: u32,
) -> Result<Vec<Frac128>, AllocError>
    ensures { IfOk result (λ v. map exact v.items ≡ map (λ name. number_at (column_of frame.now name) index) names.now) }
{
    let mut numbers = Vec::with_capacity(alloc, names.len())?;
    for name in names {
        numbers.push(number_of(&column(frame, name.as_str()), index))?;
    }
    Ok(numbers)
}

/// What an arithmetic comes to in a record, or why it has no value there.
#[tactic(auto, unfolding(crate::specs::Computed::arith_at, crate::specs::Computed::arith_operations))]
pub(crate) fn arith_value(
    alloc: Global,
    frame: &Frame,
    arith: &Arith,
    index: u32,
) -> Result<Frac128, ArithFault>
    requires { CanEvaluate arith.now }
    ensures value { IfOk result (λ x. exact x ≡ arith_at frame.now arith.now index) }
    ensures fits { OnOk result (NoneOverflows (arith_operations frame.now arith.now index)) }
    ensures fault { IfErr result (HasArithCause frame.now arith.now index) }
{
    match numbers_in(alloc, frame, arith.names.as_slice(), index) {
        Ok(numbers) => evaluate(alloc, arith, &numbers),
        Err(_) => Err(ArithFault::OutOfMemory),
    }
}

/// The values of an arithmetic in some records.
#[derive(Drop)]
pub(crate) struct Computed<'a> {
    pub(crate) frame: &'a Frame,
    pub(crate) arith: &'a Arith,
    pub(crate) records: &'a [u32],
    // Those of the first records, up to one in which an operation overflows.
    values: Vec<Frac128>,
    ghost right: { map exact values.items ≡ map (arith_at frame.now arith.now) (take (length values.items) records.now) } by { Prim.hlevel (props, ℚ_set) },
}

fn value_at(values: &[Frac128], place: usize) -> Option<Frac128>
    ensures { result ≡ slice_get values.now place }
{
    values.get(place).copied()
}

impl Computed<'_> {
    ghost use Rattle.std.specs.Prelude.{map, take};
    ghost use Rattle.frac_core.specs.Values.{exact};
    ghost use Rattle.design_matrix.specs.Computed.{arith_at};

    /// The value at a place among the records. None is kept behind a record in which an operation
    /// overflows: no entry is asked for there, and it is answered as want of memory.
    pub(crate) fn at(&self, place: usize) -> Result<Frac128, AllocError>
        ensures { IfOk result (λ x. exact x ≡ slice_index_or (map (arith_at self.now.frame.now self.now.arith.now) self.now.records.now) place (whole (pos 0))) }
    {
        match value_at(&self.values, place) {
            Some(value) => Ok(value),
            None => Err(AllocError),
        }
    }
}

// The values of an arithmetic in these records, up to one in which an operation overflows.
fn values_in(
    alloc: Global,
    frame: &Frame,
    arith: &Arith,
    records: &[u32],
) -> Result<Vec<Frac128>, AllocError>
    requires { CanEvaluate arith.now }
    ensures { IfOk result (λ v. map exact v.items ≡ map (arith_at frame.now arith.now) (take (length v.items) records.now)) }
{
    let mut values = Vec::with_capacity(alloc, records.len())?;
    for index in records {
        match arith_value(alloc, frame, arith, *index) {
            Ok(value) => values.push(value)?,
            Err(ArithFault::OutOfMemory) => return Err(AllocError),
            Err(ArithFault::Overflow { .. }) => return Ok(values),
        }
    }
    Ok(values)
}

/// The values of an arithmetic in these records.
pub(crate) fn compute<'a>(
    alloc: Global,
    frame: &'a Frame,
    arith: &'a Arith,
    records: &'a [u32],
) -> Result<Computed<'a>, AllocError>
    requires { CanEvaluate arith.now }
    ensures frame { IfOk result (λ c. c.frame.now ≡ frame.entry.now) }
    ensures arith { IfOk result (λ c. c.arith.now ≡ arith.entry.now) }
    ensures records { IfOk result (λ c. c.records.now ≡ records.entry.now) }
{
    let values = values_in(alloc, frame, arith, records)?;
    Ok(Computed {
        frame,
        arith,
        records,
        values,
    })
}

fn push_term<'a>(ariths: &mut Vec<&'a Arith>, term: &'a Term) -> Result<(), AllocError>
    ensures { OnOk result (map (λ a. a.now) ariths.new.items ≡ map (λ a. a.now) ariths.old.items ++ term_ariths term.now) }
{
    let variables = term.variables.as_slice();
    for variable in variables {
        if let Some(arith) = &variable.arith {
            ariths.push(arith)?;
        }
    }
    Ok(())
}

fn push_offsets<'a>(ariths: &mut Vec<&'a Arith>, offsets: &'a [Arith]) -> Result<(), AllocError>
    ensures { OnOk result (map (λ a. a.now) ariths.new.items ≡ map (λ a. a.now) ariths.old.items ++ offsets.now) }
{
    for offset in offsets {
        ariths.push(offset)?;
    }
    Ok(())
}

/// The arithmetics of a formula: those of the terms, by terms and then by variables, and then the
/// offsets.
pub(crate) fn ariths_in(alloc: Global, model: &Formula) -> Result<Vec<&Arith>, AllocError>
    ensures { IfOk result (λ v. map (λ a. a.now) v.items ≡ ariths_of model.now) }
{
    let mut ariths = Vec::new(alloc);
    let terms = model.terms.as_slice();
    for term in terms {
        push_term(&mut ariths, term)?;
    }
    push_offsets(&mut ariths, model.offsets.as_slice())?;
    Ok(ariths)
}

fn has_text(found: &[&Arith], arith: &Arith) -> bool
    ensures { result ≡ list_any (λ b. bytes_eq b.now.text arith.now.text) found.now }
{
    found
        .iter()
        .any(|other| other.text.as_str() == arith.text.as_str())
}

// The arithmetics with one more, where none has its text.
fn add_text<'a>(mut found: Vec<&'a Arith>, arith: &'a Arith) -> Result<Vec<&'a Arith>, AllocError>
    ensures { IfOk result (λ v. map (λ a. a.now) v.items ≡ with_text (map (λ a. a.now) found.entry.items) arith.entry.now) }
{
    if has_text(&found, arith) {
        return Ok(found);
    }
    found.push(arith)?;
    Ok(found)
}

// Each of these texts once.
fn once<'a>(alloc: Global, ariths: &[&'a Arith]) -> Result<Vec<&'a Arith>, AllocError>
    ensures { IfOk result (λ v. map (λ a. a.now) v.items ≡ texts_once [] (map (λ a. a.now) ariths.now)) }
{
    let mut found = Vec::new(alloc);
    for arith in ariths {
        found = add_text(found, *arith)?;
    }
    Ok(found)
}

/// The arithmetics of a formula, equal ones once.
#[tactic(auto, unfolding(crate::specs::Computed::expressions))]
pub(crate) fn expressions_in(alloc: Global, model: &Formula) -> Result<Vec<&Arith>, AllocError>
    ensures { IfOk result (λ v. map (λ a. a.now) v.items ≡ expressions model.now) }
{
    let ariths = ariths_in(alloc, model)?;
    let found = once(alloc, &ariths)?;
    Ok(found)
}

// The fault of the arithmetic at a place that has no value in a record.
fn refusal(index: u32, place: usize, fault: ArithFault) -> DesignFault
    requires { index + 1 < 2 ^ 32 }
    ensures { result ≡ refusal index place fault }
{
    match fault {
        ArithFault::OutOfMemory => DesignFault::OutOfMemory,
        ArithFault::Overflow { term, op } => DesignFault::Overflow(Spill {
            site: Site {
                quantity: Quantity::ArithValue,
                first: index + 1,
                second: u32::try_from(place).unwrap_or(u32::MAX),
                third: 0,
                term,
                kind: op.kind,
            },
            left: op.left,
            right: op.right,
        }),
    }
}

/// Refuses a record in which an operation of these arithmetics overflows: the first.
pub(crate) fn check_ariths(
    alloc: Global,
    frame: &Frame,
    ariths: &[&Arith],
    index: u32,
) -> Result<(), DesignFault>
    requires numbered { index + 1 < 2 ^ 32 }
    requires usable { All (λ a. CanEvaluate a.now) ariths.now }
    ensures fits { OnOk result (ArithsFit frame.now (map (λ a. a.now) ariths.now) index) }
    ensures fault { IfErr result (λ e. (e ≡ DesignFault.OutOfMemory)
        ⊎ ((s : Spilt Fraction128) × (e ≡ DesignFault.Overflow s)
        × OverflowsInAriths frame.now (map (λ a. a.now) ariths.now) index s)) }
{
    for (place, arith) in ariths.iter().enumerate() {
        match arith_value(alloc, frame, *arith, index) {
            Ok(_) => {}
            Err(fault) => return Err(refusal(index, place, fault)),
        }
    }
    Ok(())
}

/// The values of the offsets in a record in which no operation of theirs overflows.
pub(crate) fn offset_values(
    alloc: Global,
    frame: &Frame,
    offsets: &[Arith],
    index: u32,
) -> Result<Vec<Frac128>, AllocError>
    requires { All CanEvaluate offsets.now }
    ensures { IfOk result (λ v. map exact v.items ≡ offsets_at frame.now offsets.now index) }
{
    let mut values = Vec::with_capacity(alloc, offsets.len())?;
    for offset in offsets {
        match arith_value(alloc, frame, offset, index) {
            Ok(value) => values.push(value)?,
            Err(_) => return Err(AllocError),
        }
    }
    Ok(values)
}
