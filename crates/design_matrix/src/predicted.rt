//! The records that are predicted.

ghost use Rattle.std.specs.Prelude.{◌≡◌, IfOk, map};
ghost use Rattle.data_frame.specs.Views.{lent_column};
ghost use Rattle.design_matrix.specs.Cells.{column_of, predictor_names};
ghost use Rattle.design_matrix.specs.Predicted.{is_asked as is_asked_of, predicted};

use crate::Design;
use crate::cells::{column, has_value};
use crate::kept::is_complete;
use crate::used::push_predictors;
use data_frame::{Column, Frame};
use formula_parser::Formula;
use frac_core::{List, OutOfMemory};
use std::alloc::{AllocError, Global};

// The response, and the columns that explain it.
#[derive(Drop)]
struct AskedColumns<'a> {
    response: Column<'a>,
    columns: Vec<Column<'a>>,
}

impl AskedColumns<'_> {
    // Whether the response of a record is missing, and no cell that explains it is.
    fn is_asked(&self, index: u32) -> bool
        ensures { result ≡ is_asked_of (lent_column self.now.response) (map lent_column self.now.columns.items) index }
    {
        if has_value(&self.response, index) {
            return false;
        }
        is_complete(&self.columns, index)
    }
}

// The columns of these names.
fn columns_named<'a>(
    alloc: Global,
    frame: &'a Frame,
    names: &[&str],
) -> Result<Vec<Column<'a>>, AllocError>
    ensures { IfOk result (λ columns. map lent_column columns.items ≡ map (column_of frame.now) (map (λ n. n.now) names.now)) }
{
    let mut columns = Vec::with_capacity(alloc, names.len())?;
    for name in names {
        columns.push(column(frame, *name))?;
    }
    Ok(columns)
}

fn asked_columns<'a>(
    alloc: Global,
    frame: &'a Frame,
    model: &Formula,
) -> Result<AskedColumns<'a>, AllocError>
    ensures response { IfOk result (λ a. lent_column a.response ≡ column_of frame.now model.now.response) }
    ensures columns { IfOk result (λ a. map lent_column a.columns.items ≡ map (column_of frame.now) (predictor_names model.now)) }
{
    let mut names = Vec::new(alloc);
    push_predictors(&mut names, model)?;
    Ok(AskedColumns {
        response: column(frame, model.response.as_str()),
        columns: columns_named(alloc, frame, &names)?,
    })
}

/// The records whose response is missing and whose other used cells, the weight apart, aren't: ascending,
/// and counted from 1. The design is that of the table and the formula; no record depends on more of it.
pub fn predicted_records(
    alloc: Global,
    frame: &Frame,
    model: &Formula,
    _design: &Design,
) -> Result<List<u32>, OutOfMemory>
    ensures { IfOk result (λ records. records ≡ predicted frame.now model.now) }
{
    let asked = match asked_columns(alloc, frame, model) {
        Ok(asked) => asked,
        Err(_) => return Err(OutOfMemory),
    };
    let mut records = List::new(alloc);
    for index in 0..frame.records() {
        if asked.is_asked(index) {
            records.add(index + 1)?;
        }
    }
    Ok(records)
}
