//! The inverse of the Gram matrix of the weighted columns of a problem, in fractions of any size.
//!
//! The one contract: `GramInverse::new` gives the inverse for a problem of data rows and independent columns
//! (`specs/Inverses.antt`), and is refused only where no memory is found. It is made in fractions of limited size first, and
//! where these overflow in fractions of any size: column by column that takes the orthogonal vector of the column, by which
//! the inverse of the columns before it grows (Gram-Schmidt under the Gram matrix). A weighted column and the inner product
//! of two lists stand beside it, since scores of columns are made of them. The crate stands on `ratio`, on the Gram matrix of
//! `rank_model` and `gram_matrix`, and on the greedy start of `basis_inverse`.
//! Its cases stand in `cases`.
//!
//! `nested_test` calls it so:
//! ```text
//! let inverse = GramInverse::new(alloc, full)?;
//! let factor = self.inverse.entry(self.tested[j], self.tested[m]);
//!
//! let weighted = weighted_column(alloc, full, column)?;
//! let score = inner_product(alloc, weighted.as_slice(), wilcoxon)?;
//! ```
#![tactic(auto)]

mod columns;
mod inverse;
mod narrow;
mod product;
mod rows;

pub use columns::weighted_column;
pub use inverse::GramInverse;
pub use product::inner_product;
