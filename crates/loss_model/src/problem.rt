//! A quantile regression as rows over columns.
use frac_core::List;

/// A row: its entries, its response, and its costs per unit of residual, which at the parameter
/// `theta` are `up0 + up1*theta` above the fit and `down0 + down1*theta` below it.
///
/// A data row of weight `w` has `up0 = 0`, `up1 = w`, `down0 = w`, `down1 = -w`; a penalty row has
/// `up0 = down0 = lambda`, `up1 = down1 = 0` and `y = 0`.
#[derive(Drop)]
pub struct Row<F> {
    pub x: List<F>,
    pub y: F,
    pub up0: F,
    pub up1: F,
    pub down0: F,
    pub down1: F,
}

/// The rows of a regression. It is well shaped where it has 1 to 128 columns and at most 16,384
/// rows, and each row has one entry per column.
#[derive(Drop)]
pub struct Problem<F> {
    pub columns: u32,
    pub rows: List<Row<F>>,
}
