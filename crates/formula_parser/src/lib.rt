//! Formulas over the columns of a table, as terms, smooths, offsets and an intercept.
//!
//! A variable is a name, a name that was written with `factor`, or an arithmetic `I(..)`; two
//! arithmetics are one variable where their texts are equal. A term is a set of variables. The
//! meaning of an expression is a list of distinct terms (R's formula language, in the project's
//! profile):
//! - a name, `factor(NAME)` or `I(..)` is one term of one variable; `.` is one term for each column but the
//!   response, in the order of the columns, and a column of weights is among them;
//! - `A + B` is `A` followed by the terms of `B` that it lacks, `A - B` is `A` without the terms of
//!   `B`, and a leading sign acts on the empty list;
//! - `A : B` has the unions of a term of `A` and a term of `B`, `A` outermost, each once, in the
//!   order in which they come up; `A * B` is `A + B + A:B`;
//! - `A^1` is `A`, and `A^(k+1)` is `A^k + (A^k : A)`.
//!
//! The intercept is there at first; `+ 1` and `- 0` put it there, `- 1` and `+ 0` take it away, and
//! the last of them decides. The terms are sorted by their number of variables, and ties keep their
//! order. The variables of a term stand in the order in which they first stand in the text, where
//! `.` counts as its columns. Smooths and offsets stand in the order of the text; an offset adds no term.
//!
//! The text of an arithmetic is its tokens, with one space on both sides of a `+`, `-` or `*` between
//! two operands and no other spaces, and each number as its number text.
//!
//! Faults are looked for in this order:
//! 1. from left to right, those of `formula_grammar::read`;
//! 2. `UnknownName` at the first name that is no column, those in arithmetics included;
//! 3. `TooManyTerms` at the first operator whose meaning has more than 4,096 terms, where operators
//!    are evaluated operands first and left first.
//!
//! The crate's one contract: `parse` gives what the one formula with the text's tokens says, or the
//! text's first fault, as `specs/Parsed.antt`, `specs/Meaning.antt`, `specs/Terms.antt`,
//! `specs/Scope.antt` and `specs/Arithmetics.antt` define them. The laws of `laws` add that no lambda is
//! negative, and that each arithmetic is one of `formula_arith` that can be evaluated, whose names are
//! columns.
//!
//! A term is kept as a list that says of each variable whether it is in it, and a list of terms with
//! the set of them beside it, so that a term is looked up at once. An operator stops as soon as it
//! has more terms than it may.
//!
//! It stands on `formula_grammar` for the code of a formula, on `formula_arith` for what an arithmetic
//! is, and on `frac_core` for texts, lists and fractions.
//! Its cases stand in `cases`.
//!
//! `rq_input` calls it so:
//! ```text
//! match parse(alloc, job.formula.as_str(), frame.names()) {
//!     Ok(model) => Ok(model),
//!     Err(fault) => Err(fault),
//! }
//! ```
#![tactic(auto)]

mod arithmetics;
mod crossing;
mod evaluation;
mod fault;
mod formula;
pub mod laws;
mod naming;
mod parsing;
mod scope;
mod term_set;

pub use fault::FormulaFault;
pub use formula::{Formula, Smooth, Term, Variable};
pub use parsing::parse;
