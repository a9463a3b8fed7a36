//! The weights of records.

ghost use Rattle.std.specs.Prelude.{◌≡◌, None, Some, IfErr, OnOk, false};
ghost use Rattle.std.specs.Option.{option_map_or};
ghost use Rattle.frac_core.specs.Values.{exact};
ghost use Rattle.design_matrix.specs.Cells.{weight_at, weight_sign};
ghost use Rattle.design_matrix.specs.CodedVariable.{is_text as is_text_of};
ghost use Rattle.design_matrix.specs.Faults.{weights_fault};
ghost use Rattle.design_matrix.specs.Views.{weights_seen};

use crate::DesignFault;
use crate::cells::number_of;
use crate::coded::is_text;
use data_frame::Column;
use frac_core::{Exact, Frac128};
use std::cmp::Ordering;

/// The column of the weights. Without one each weight is 1.
#[derive(Clone, Copy)]
pub(crate) struct Weights<'a> {
    pub(crate) column: Option<Column<'a>>,
}

impl Weights<'_> {
    /// Whether they are a factor.
    pub(crate) fn is_text(&self) -> bool
        ensures { result ≡ option_map_or is_text_of (weights_seen self.now) false }
    {
        match &self.column {
            Some(column) => is_text(column),
            None => false,
        }
    }

    /// The weight of a record, which is counted from 0.
    pub(crate) fn weight(&self, index: u32) -> Frac128
        ensures { exact result ≡ weight_at (weights_seen self.now) index }
    {
        match &self.column {
            Some(column) => number_of(column, index),
            None => Frac128::one(),
        }
    }

    /// How it compares with 0.
    pub(crate) fn sign(&self, index: u32) -> Ordering
        ensures { result ≡ weight_sign (weights_seen self.now) index }
    {
        self.weight(index).compare(Frac128::zero())
    }
}

/// Refuses the first of so many records whose weight is below 0.
pub(crate) fn check_weights(weights: &Weights<'_>, records: u32) -> Result<(), DesignFault>
    ensures sound { OnOk result (weights_fault (weights_seen weights.now) records ≡ None) }
    ensures fault { IfErr result (λ e. weights_fault (weights_seen weights.now) records ≡ Some e) }
{
    for index in 0..records {
        if weights.sign(index).is_lt() {
            return Err(DesignFault::NegativeWeight { rec: index + 1 });
        }
    }
    Ok(())
}
