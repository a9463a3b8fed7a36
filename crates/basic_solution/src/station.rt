//! Where the basic solution stands.
use basis_inverse::Inverse;
use frac_core::Exact;
use loss_model::{Basis, Problem};

/// A basis of a problem, with the inverse of its rows.
#[derive(Drop)]
pub struct Station<'a, F: Exact> {
    pub problem: &'a Problem<F>,
    pub inverse: &'a Inverse<F>,
    pub basis: &'a Basis,
}
