//! The operators of an arithmetic that wait for their right operand, sum by sum.
ghost use Rattle.std.specs.Prelude.{◌≡◌, ◌∷◌, [], length, MatchOption, OnOk, ◌==◌};

use crate::token::Sign;
use frac_core::OutOfMemory;
use std::alloc::Global;
use std::marker::Model;

/// A sign of an arithmetic.
#[derive(Clone, Copy)]
pub(crate) enum ArithSign {
    /// It stands in front of the first product of a sum.
    Leading(Sign),
    Between(Sign),
}

/// The operators that wait for their right operand in one sum of an arithmetic: its sign, and
/// whether a star does.
#[derive(Clone, Copy)]
pub(crate) struct ArithLevel {
    pub sum: Option<ArithSign>,
    pub product: bool,
}

/// The sums around the innermost one. Contracts see them from the innermost outward.
#[derive(Drop)]
pub(crate) struct ArithLevels {
    levels: Vec<ArithLevel>,
}

impl Model for ArithLevels {
    ghost use Rattle.std.specs.Prelude.{List as list, reverse};
    ghost use Rattle.formula_grammar.specs.declared.arith_levels.ArithLevel.{ArithLevel};

    ghost Value = { list ArithLevel };

    ghost view = { λ a. reverse a.levels.items };
}

impl ArithLevels {
    pub(crate) fn new(alloc: Global) -> ArithLevels
        ensures { result ≡ [] }
    {
        ArithLevels {
            levels: Vec::new(alloc),
        }
    }

    pub(crate) fn is_empty(&self) -> bool
        ensures { result ≡ (length self.now == 0) }
    {
        self.levels.is_empty()
    }

    pub(crate) fn push(&mut self, level: ArithLevel) -> Result<(), OutOfMemory>
        ensures { OnOk result (self.new ≡ level ∷ self.old) }
    {
        match self.levels.push(level) {
            Ok(()) => Ok(()),
            Err(_) => Err(OutOfMemory),
        }
    }

    pub(crate) fn pop(&mut self) -> Option<ArithLevel>
        ensures { MatchOption result (self.old ≡ []) (λ level. self.old ≡ level ∷ self.new) }
    {
        self.levels.pop()
    }
}
