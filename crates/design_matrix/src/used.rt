//! The columns that a formula and weights use.

ghost use Rattle.std.specs.Prelude.{◌≡◌, ◌⊎◌, ◌++◌, None, Some, IfErr, IfOk, OnOk, map, option_and_then, option_copied, option_to_list};
ghost use Rattle.std.specs.List.{flat_map};
ghost use Rattle.formula_parser.specs.Held.{ariths_of};
ghost use Rattle.data_frame.specs.Views.{lent_column};
ghost use Rattle.design_matrix.specs.Cells.{column_of, names_by, predictor_names, term_names, used_names, weights_in};
ghost use Rattle.design_matrix.specs.Faults.{ariths_fault, name_fault, named_fault, used_fault, wide_fault, widths_fault};
ghost use Rattle.design_matrix.specs.Lists.{first_some};
ghost use Rattle.design_matrix.specs.Views.{AreUsed, weights_seen};

use crate::DesignFault;
use crate::cells::column;
use crate::coded::is_text;
use crate::computed::ariths_in;
use crate::weights::{Weights, check_weights};
use data_frame::{Column, Frame};
use formula_parser::{Formula, Smooth, Term, Variable};
use frac_core::{Arith, Text};
use std::alloc::{AllocError, Global};

/// The columns that a formula and weights use.
#[derive(Drop)]
pub(crate) struct UsedColumns<'a> {
    pub(crate) response: Column<'a>,
    pub(crate) weights: Weights<'a>,
    /// All of them, in their order.
    pub(crate) columns: Vec<Column<'a>>,
}

fn push_weights<'a>(names: &mut Vec<&'a str>, weights: Option<&'a str>) -> Result<(), AllocError>
    ensures { OnOk result (map (λ n. n.now) names.new.items
        ≡ map (λ n. n.now) names.old.items ++ option_to_list (option_copied weights.entry)) }
{
    if let Some(name) = weights {
        names.push(name)?;
    }
    Ok(())
}

fn push_names<'a>(names: &mut Vec<&'a str>, more: &'a [Text]) -> Result<(), AllocError>
    ensures { OnOk result (map (λ n. n.now) names.new.items ≡ map (λ n. n.now) names.old.items ++ more.now) }
{
    for name in more {
        names.push(name.as_str())?;
    }
    Ok(())
}

// Adds the name of a variable's column, or the names of its arithmetic.
fn push_variable<'a>(names: &mut Vec<&'a str>, variable: &'a Variable) -> Result<(), AllocError>
    ensures { OnOk result (map (λ n. n.now) names.new.items
        ≡ map (λ n. n.now) names.old.items ++ names_by variable.now.name variable.now.arith) }
{
    match &variable.arith {
        Some(arith) => push_names(names, arith.names.as_slice())?,
        None => names.push(variable.name.as_str())?,
    }
    Ok(())
}

fn push_variables<'a>(names: &mut Vec<&'a str>, term: &'a Term) -> Result<(), AllocError>
    ensures { OnOk result (map (λ n. n.now) names.new.items
        ≡ map (λ n. n.now) names.old.items ++ term_names term.now) }
{
    let variables = term.variables.as_slice();
    for variable in variables {
        push_variable(names, variable)?;
    }
    Ok(())
}

fn push_offsets<'a>(names: &mut Vec<&'a str>, offsets: &'a [Arith]) -> Result<(), AllocError>
    ensures { OnOk result (map (λ n. n.now) names.new.items
        ≡ map (λ n. n.now) names.old.items ++ flat_map (λ a. a.names) offsets.now) }
{
    for offset in offsets {
        push_names(names, offset.names.as_slice())?;
    }
    Ok(())
}

fn push_smooths<'a>(names: &mut Vec<&'a str>, smooths: &'a [Smooth]) -> Result<(), AllocError>
    ensures { OnOk result (map (λ n. n.now) names.new.items
        ≡ map (λ n. n.now) names.old.items ++ map (λ s. s.name) smooths.now) }
{
    for smooth in smooths {
        names.push(smooth.name.as_str())?;
    }
    Ok(())
}

/// Adds the names of the columns that explain: those of the variables, by terms and then by variables, of the
/// offsets, and of the smooths.
pub(crate) fn push_predictors<'a>(
    names: &mut Vec<&'a str>,
    model: &'a Formula,
) -> Result<(), AllocError>
    ensures { OnOk result (map (λ n. n.now) names.new.items ≡ map (λ n. n.now) names.old.items ++ predictor_names model.now) }
{
    let terms = model.terms.as_slice();
    for term in terms {
        push_variables(names, term)?;
    }
    push_offsets(names, model.offsets.as_slice())?;
    push_smooths(names, model.smooths.as_slice())?;
    Ok(())
}

// Refuses an arithmetic of which a name is that of a factor: the first name.
fn check_names(alloc: Global, frame: &Frame, names: &[Text]) -> Result<(), DesignFault>
    ensures sound { OnOk result (first_some (named_fault frame.now) names.now ≡ None) }
    ensures fault { IfErr result (λ e. (e ≡ DesignFault.OutOfMemory)
        ⊎ (first_some (named_fault frame.now) names.now ≡ Some e)) }
{
    for name in names {
        if is_text(&column(frame, name.as_str())) {
            return Err(DesignFault::ArithNotNumeric {
                name: Text::new(alloc, name.as_str())?,
            });
        }
    }
    Ok(())
}

// The same of these arithmetics.
#[tactic(auto, unfolding(crate::specs::Faults::ariths_fault))]
fn check_arith_names(alloc: Global, frame: &Frame, ariths: &[&Arith]) -> Result<(), DesignFault>
    ensures sound { OnOk result (ariths_fault frame.now (map (λ a. a.now) ariths.now) ≡ None) }
    ensures fault { IfErr result (λ e. (e ≡ DesignFault.OutOfMemory)
        ⊎ (ariths_fault frame.now (map (λ a. a.now) ariths.now) ≡ Some e)) }
{
    for arith in ariths {
        check_names(alloc, frame, arith.names.as_slice())?;
    }
    Ok(())
}

// The same of a formula's.
fn check_ariths(alloc: Global, frame: &Frame, model: &Formula) -> Result<(), DesignFault>
    ensures sound { OnOk result (ariths_fault frame.now (ariths_of model.now) ≡ None) }
    ensures fault { IfErr result (λ e. (e ≡ DesignFault.OutOfMemory)
        ⊎ (ariths_fault frame.now (ariths_of model.now) ≡ Some e)) }
{
    let ariths = ariths_in(alloc, model)?;
    check_arith_names(alloc, frame, &ariths)?;
    Ok(())
}

// The names of the columns that are used.
#[tactic(auto, unfolding(crate::specs::Cells::used_names))]
fn names_used<'a>(
    alloc: Global,
    model: &'a Formula,
    weights: Option<&'a str>,
) -> Result<Vec<&'a str>, AllocError>
    ensures { IfOk result (λ names. map (λ n. n.now) names.items ≡ used_names model.now (option_copied weights.entry)) }
{
    let mut names = Vec::new(alloc);
    names.push(model.response.as_str())?;
    push_weights(&mut names, weights)?;
    push_predictors(&mut names, model)?;
    Ok(names)
}

// The column of a name, unless a number in it is too wide.
fn narrow_column<'a>(alloc: Global, frame: &'a Frame, name: &str) -> Result<Column<'a>, DesignFault>
    ensures column { IfOk result (λ c. lent_column c ≡ column_of frame.now name.now) }
    ensures sound { OnOk result (wide_fault name.now (column_of frame.now name.now) ≡ None) }
    ensures fault { IfErr result (λ e. (e ≡ DesignFault.OutOfMemory)
        ⊎ (wide_fault name.now (column_of frame.now name.now) ≡ Some e)) }
{
    match column(frame, name) {
        Column::Numbers(cells) => Ok(Column::Numbers(cells)),
        Column::Factor(cells) => Ok(Column::Factor(cells)),
        Column::TooWide { rec } => Err(DesignFault::NumberTooWide {
            rec,
            column: Text::new(alloc, name)?,
        }),
    }
}

// The columns of these names, unless a number in one of them is too wide.
fn narrow_columns<'a>(
    alloc: Global,
    frame: &'a Frame,
    names: &[&str],
) -> Result<Vec<Column<'a>>, DesignFault>
    ensures columns { IfOk result (λ columns. map lent_column columns.items
        ≡ map (column_of frame.now) (map (λ n. n.now) names.now)) }
    ensures sound { OnOk result (widths_fault frame.now (map (λ n. n.now) names.now) ≡ None) }
    ensures fault { IfErr result (λ e. (e ≡ DesignFault.OutOfMemory)
        ⊎ (widths_fault frame.now (map (λ n. n.now) names.now) ≡ Some e)) }
{
    let mut columns = Vec::with_capacity(alloc, names.len())?;
    for name in names {
        columns.push(narrow_column(alloc, frame, *name)?)?;
    }
    Ok(columns)
}

// The column of the weights, which the table must have.
fn weights_column<'a>(frame: &'a Frame, weights: Option<&str>) -> Result<Weights<'a>, DesignFault>
    ensures weights { IfOk result (λ w. weights_seen w ≡ weights_in frame.now (option_copied weights.entry)) }
    ensures sound { OnOk result (option_and_then (name_fault frame.now) (option_copied weights.entry) ≡ None) }
    ensures fault { IfErr result (λ e. option_and_then (name_fault frame.now) (option_copied weights.entry) ≡ Some e) }
{
    let Some(name) = weights else {
        return Ok(Weights { column: None });
    };
    match frame.column(name) {
        Some(column) => Ok(Weights {
            column: Some(column),
        }),
        None => Err(DesignFault::UnknownWeights),
    }
}

/// The columns that are used, unless something is wrong with them: the weights are unknown, the
/// response, the weights or a name of an arithmetic are a factor, a number is too wide, or a weight is below 0.
#[tactic(auto, unfolding(crate::specs::Faults::used_fault))]
pub(crate) fn used_columns<'a>(
    alloc: Global,
    frame: &'a Frame,
    model: &Formula,
    weights: Option<&str>,
) -> Result<UsedColumns<'a>, DesignFault>
    ensures used { IfOk result (AreUsed frame.now model.now (option_copied weights.entry)) }
    ensures sound { OnOk result (used_fault frame.now model.now (option_copied weights.entry) ≡ None) }
    ensures fault { IfErr result (λ e. (e ≡ DesignFault.OutOfMemory)
        ⊎ (used_fault frame.now model.now (option_copied weights.entry) ≡ Some e)) }
{
    let weighing = weights_column(frame, weights)?;
    let response = column(frame, model.response.as_str());
    if is_text(&response) {
        return Err(DesignFault::ResponseNotNumeric);
    }
    if weighing.is_text() {
        return Err(DesignFault::WeightNotNumeric);
    }
    check_ariths(alloc, frame, model)?;
    let names = names_used(alloc, model, weights)?;
    let columns = narrow_columns(alloc, frame, &names)?;
    check_weights(&weighing, frame.records())?;
    Ok(UsedColumns {
        response,
        weights: weighing,
        columns,
    })
}
