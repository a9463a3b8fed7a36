//! What a formula says, by the columns of its table.
use frac_core::{Arith, Frac128, List, Text};

/// A column of the table as a formula names it, or an arithmetic of columns.
#[derive(Drop)]
pub struct Variable {
    /// The name of the column, or `I(`, the text of the arithmetic and `)`.
    pub name: Text,
    /// It was written as `factor(NAME)`: numbers in the column are levels.
    pub as_factor: bool,
    pub arith: Option<Arith>,
}

/// A set of variables, in the order in which each first stands in the formula.
#[derive(Drop)]
pub struct Term {
    /// One variable or more, each once.
    pub variables: List<Variable>,
}

/// A smooth part `qss(NAME, LAMBDA)`: a piecewise linear function of a column, whose changes of
/// slope are penalised by their total variation (Koenker, Ng and Portnoy 1994).
#[derive(Drop)]
pub struct Smooth {
    /// The name of the column.
    pub name: Text,
    /// The penalty's weight, which isn't negative.
    pub lambda: Frac128,
}

/// What a formula says.
#[derive(Drop)]
pub struct Formula {
    /// The name of the column that is explained.
    pub response: Text,
    /// A constant column is among the explaining ones.
    pub intercept: bool,
    /// Distinct terms, by their number of variables and then in the order in which they come up.
    pub terms: List<Term>,
    /// The smooths in the order of the text.
    pub smooths: List<Smooth>,
    /// What is subtracted from the response, in the order of the text.
    pub offsets: List<Arith>,
}
