//! The operators of a formula that wait for their right operand, sum by sum.
ghost use Rattle.std.specs.Prelude.{◌≡◌, ◌∷◌, [], length, MatchOption, OnOk, ◌==◌};

use frac_core::OutOfMemory;
use std::alloc::Global;
use std::marker::Model;

/// An operator between the products of a sum, and the byte at which it stands.
#[derive(Clone, Copy)]
pub(crate) struct Operator {
    pub sign: crate::Sign,
    pub at: u32,
}

/// The operators that wait for their right operand in one sum, outside every parenthesis or in one.
#[derive(Clone, Copy)]
pub(crate) struct Level {
    pub sum: Option<Operator>,
    pub product: Option<u32>,
    pub inter: Option<u32>,
}

/// The sums around the innermost one. Contracts see them from the innermost outward.
#[derive(Drop)]
pub(crate) struct Levels {
    levels: Vec<Level>,
}

impl Model for Levels {
    ghost use Rattle.std.specs.Prelude.{List as list, reverse};
    ghost use Rattle.formula_grammar.specs.declared.levels.Level.{Level};

    ghost Value = { list Level };

    ghost view = { λ a. reverse a.levels.items };
}

impl Levels {
    pub(crate) fn new(alloc: Global) -> Levels
        ensures { result ≡ [] }
    {
        Levels {
            levels: Vec::new(alloc),
        }
    }

    pub(crate) fn is_empty(&self) -> bool
        ensures { result ≡ (length self.now == 0) }
    {
        self.levels.is_empty()
    }

    pub(crate) fn push(&mut self, level: Level) -> Result<(), OutOfMemory>
        ensures { OnOk result (self.new ≡ level ∷ self.old) }
    {
        match self.levels.push(level) {
            Ok(()) => Ok(()),
            Err(_) => Err(OutOfMemory),
        }
    }

    pub(crate) fn pop(&mut self) -> Option<Level>
        ensures { MatchOption result (self.old ≡ []) (λ level. self.old ≡ level ∷ self.new) }
    {
        self.levels.pop()
    }
}
