//! Arithmetics of a formula, such as that of `I(2*x - z)`, as their text, their names and their code.
use crate::{Frac128, List, Text};

/// One step of an arithmetic over a stack of fractions. An operator takes its operands off, the
/// right one first, and pushes what it gives.
#[derive(Clone, Copy, Debug, PartialEq, Eq)]
pub enum ArithOp {
    /// The value of a name, counted from 0 in the order in which names first stand.
    Load { name: u32 },
    Constant { value: Frac128 },
    /// A leading `-`.
    Negate,
    Add,
    Sub,
    Mul,
    /// `^`, with an exponent of 1 to 8.
    Power { exponent: u32 },
}

/// An arithmetic.
#[derive(Drop)]
pub struct Arith {
    /// The arithmetic as it is printed.
    pub text: Text,
    /// Its distinct names in the order in which they first stand.
    pub names: List<Text>,
    /// Its steps: those of its operands, left first, and then its operator.
    pub code: List<ArithOp>,
}
