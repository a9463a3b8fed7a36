//! The records that are kept.

ghost use Rattle.std.specs.Prelude.{◌≡◌, IfOk, filter, map};
ghost use Rattle.std.specs.List.{list_all, range_with_len};
ghost use Rattle.data_frame.specs.Views.{lent_column};
ghost use Rattle.design_matrix.specs.Cells.{is_kept, is_present};
ghost use Rattle.design_matrix.specs.Views.{weights_seen};

use crate::cells::has_value;
use crate::used::UsedColumns;
use data_frame::Column;
use std::alloc::{AllocError, Global};

pub(crate) fn is_complete(columns: &[Column<'_>], index: u32) -> bool
    ensures { result ≡ list_all (λ column. is_present (lent_column column) index) columns.now }
{
    columns.iter().all(|column| has_value(column, index))
}

fn is_kept(used: &UsedColumns<'_>, index: u32) -> bool
    ensures { result ≡ is_kept (map lent_column used.now.columns.items) (weights_seen used.now.weights) index }
{
    is_complete(&used.columns, index) && used.weights.sign(index).is_ne()
}

/// The records of which no used cell is missing and whose weight isn't 0, counted from 0.
pub(crate) fn kept_records(
    alloc: Global,
    used: &UsedColumns<'_>,
    records: u32,
) -> Result<Vec<u32>, AllocError>
    ensures { IfOk result (λ kept. kept.items
        ≡ filter (is_kept (map lent_column used.now.columns.items) (weights_seen used.now.weights)) (range_with_len 0 records)) }
{
    let mut kept = Vec::new(alloc);
    for index in 0..records {
        if is_kept(used, index) {
            kept.push(index)?;
        }
    }
    Ok(kept)
}
