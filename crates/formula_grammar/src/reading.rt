//! What a formula is read as: steps in postfix order, the intercept, the smooths and the offsets.
use crate::token::{Numeral, Span, Token};
use frac_core::List;

/// One step of an evaluation over a stack of lists of terms: a list is pushed, or an operator takes
/// its operands off, the right one first, and pushes what it gives. An operator keeps the byte at
/// which it stands.
#[derive(Drop)]
pub enum Step {
    /// The term of one variable, which was written with `factor` or without it.
    Load { name: Span, as_factor: bool },
    /// `.`: one term for each column but the response.
    LoadAll,
    /// The term of one variable, which is an arithmetic.
    LoadArith { part: ArithPart },
    /// No term: what a leading sign acts on.
    Nothing,
    /// `+`
    Add { at: u32 },
    /// `-`
    Remove { at: u32 },
    /// `*`
    Multiply { at: u32 },
    /// `:`
    Interact { at: u32 },
    /// `^`, with an exponent of 1 to 8.
    Raise { exponent: u32, at: u32 },
}

/// One step of an arithmetic over a stack of fractions: a value is pushed, or an operator takes its
/// operands off, the right one first, and pushes what it gives.
#[derive(Clone, Copy, Debug, PartialEq, Eq)]
pub enum ArithStep {
    /// The value of a name.
    Load { name: Span },
    Constant { number: Numeral },
    /// A leading `-`.
    Negate,
    Add,
    Sub,
    Mul,
    /// `^`, with an exponent of 1 to 8.
    Power { exponent: u32 },
}

/// An arithmetic of a formula.
#[derive(Drop)]
pub struct ArithPart {
    /// Its tokens, without the parentheses around it.
    pub tokens: List<Token>,
    /// Its code.
    pub steps: List<ArithStep>,
}

/// A smooth: the name of its column, and its lambda.
#[derive(Clone, Copy, Debug, PartialEq, Eq)]
pub struct SmoothPart {
    pub name: Span,
    pub lambda: Numeral,
}

/// What was read of a formula.
#[derive(Drop)]
pub struct Reading {
    /// The name before `~`.
    pub response: Span,
    /// A constant column is among the explaining ones.
    pub intercept: bool,
    /// The terms, as steps that leave one list on the stack.
    pub steps: List<Step>,
    /// The smooths in the order of the text.
    pub smooths: List<SmoothPart>,
    /// The offsets in the order of the text.
    pub offsets: List<ArithPart>,
}
