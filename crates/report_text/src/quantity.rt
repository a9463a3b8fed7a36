//! The texts of a quantity and of an operation.
ghost use Rattle.std.specs.Prelude.{◌≡◌};
ghost use Rattle.report_text.specs.Quantities.{indices as indices_of, op_name as op_name_of, quantity_name as quantity_name_of};

use frac_core::OpKind;
use loss_model::{Quantity, Site};

/// The indices of a quantity as they are printed.
#[derive(Clone, Copy, Debug, PartialEq, Eq)]
pub(crate) enum PrintedIndices {
    One(u64),
    Two(u64, u64),
    Three(u64, u64, u64),
}

pub(crate) fn op_name(kind: OpKind) -> &'static [u8]
    ensures { result.now ≡ op_name_of kind }
{
    match kind {
        OpKind::Add => b"add",
        OpKind::Sub => b"sub",
        OpKind::Mul => b"mul",
        OpKind::Div => b"div",
    }
}

pub(crate) fn quantity_name(quantity: Quantity) -> &'static [u8]
    ensures { result.now ≡ quantity_name_of quantity }
{
    match quantity {
        Quantity::Coordinate => b"coordinate",
        Quantity::Coefficient => b"coefficient",
        Quantity::Residual => b"residual",
        Quantity::NonbasicTotal => b"nonbasic-total",
        Quantity::BasicDual => b"basic-dual",
        Quantity::DualValue => b"dual-value",
        Quantity::CostValue => b"cost-value",
        Quantity::Slope => b"slope",
        Quantity::CostSum => b"cost-sum",
        Quantity::Crossing => b"crossing",
        Quantity::PerturbedRatio => b"perturbed-ratio",
        Quantity::ExchangedEntry => b"exchanged-entry",
        Quantity::Loss => b"loss",
        Quantity::Score => b"score",
        Quantity::ScaledEntry => b"scaled-entry",
        Quantity::Gram => b"gram",
        Quantity::Projection => b"projection",
        Quantity::SquaredLength => b"squared-length",
        Quantity::Ray => b"ray",
        Quantity::Statistic => b"statistic",
        Quantity::DesignEntry => b"design-entry",
        Quantity::PenaltyEntry => b"penalty-entry",
        Quantity::CheckSum => b"check-sum",
        Quantity::Prediction => b"prediction",
        Quantity::PathCost => b"path-cost",
        Quantity::ArithValue => b"arith-value",
        Quantity::OffsetResponse => b"offset-response",
    }
}

/// The indices of a site. Records, parts and ends, the entries of perturbed ratios and the indices of
/// a check-sum stand as they are; all others are counted from 1.
pub(crate) fn indices(site: &Site) -> PrintedIndices
    ensures { result ≡ indices_of site.now }
{
    let (first, second, third) = (site.first as u64, site.second as u64, site.third as u64);
    match site.quantity {
        Quantity::Coordinate => PrintedIndices::Two(first + 1, second + 1),
        Quantity::Coefficient => PrintedIndices::One(first + 1),
        Quantity::Residual => PrintedIndices::One(first + 1),
        Quantity::NonbasicTotal => PrintedIndices::Two(first + 1, second),
        Quantity::BasicDual => PrintedIndices::Two(first + 1, second),
        Quantity::DualValue => PrintedIndices::Two(first + 1, second),
        Quantity::CostValue => PrintedIndices::Two(first + 1, second),
        Quantity::Slope => PrintedIndices::Two(first + 1, second),
        Quantity::CostSum => PrintedIndices::One(first + 1),
        Quantity::Crossing => PrintedIndices::Two(first + 1, second),
        Quantity::PerturbedRatio => PrintedIndices::Three(first + 1, second + 1, third),
        Quantity::ExchangedEntry => PrintedIndices::Two(first + 1, second + 1),
        Quantity::Loss => PrintedIndices::One(first),
        Quantity::Score => PrintedIndices::Three(first + 1, second, third + 1),
        Quantity::ScaledEntry => PrintedIndices::Two(first + 1, second + 1),
        Quantity::Gram => PrintedIndices::Two(first + 1, second + 1),
        Quantity::Projection => PrintedIndices::One(first + 1),
        Quantity::SquaredLength => PrintedIndices::One(first + 1),
        Quantity::Ray => PrintedIndices::Two(first + 1, second + 1),
        Quantity::Statistic => PrintedIndices::One(first),
        Quantity::DesignEntry => PrintedIndices::Two(first, second + 1),
        Quantity::PenaltyEntry => PrintedIndices::Two(first + 1, second + 1),
        Quantity::CheckSum => PrintedIndices::Three(first, second, third),
        Quantity::Prediction => PrintedIndices::Two(first, second + 1),
        Quantity::PathCost => PrintedIndices::Two(first + 1, second),
        Quantity::ArithValue => PrintedIndices::Two(first, second + 1),
        Quantity::OffsetResponse => PrintedIndices::One(first),
    }
}
