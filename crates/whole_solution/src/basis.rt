//! A basis of rows in whole numbers.
use loss_model::Basis;
use whole_rows::WholeRow;

/// A basis of rows in whole numbers, with its inverse.
#[derive_where(Clone, Copy)]
pub struct WholeBasis<'a, N, I> {
    pub rows: &'a [WholeRow<N>],
    pub basis: &'a Basis,
    pub inverse: &'a I,
    pub limit: u64,
}
