//! Arithmetics, from tokens to code.

ghost use Rattle.std.specs.Prelude.{◌≡◌, ◌++◌, ◌∷◌, [], None, Some, IfOk, OnOk};
ghost use Rattle.formula_grammar.specs.ArithMachine.{Reads, arith_atom_read, arith_ends_at, arith_close_read, arith_exponent_read, arith_fresh, arith_opening_read, arith_operand_read, arith_part, arith_power_read, arith_read, arith_sum_end, product_step};
ghost use Rattle.formula_grammar.specs.ArithCodes.{arith_signed_step};

use crate::arith_levels::{ArithLevel, ArithLevels, ArithSign};
use crate::reading::{ArithPart, ArithStep};
use crate::token::{Kind, Numeral, Sign, Token};
use frac_core::{List, OutOfMemory};
use std::alloc::Global;

/// What a half read arithmetic waits for.
#[derive(Clone, Copy)]
pub(crate) enum ArithPhase {
    /// An operand, or a sign in front of it.
    Opening,
    Operand,
    /// An operator, `^` among them.
    BehindAtom,
    Exponent,
    BehindPower,
}

/// A half read arithmetic: what stands fast of it, and the operators that wait for their right
/// operand.
#[derive(Drop)]
pub(crate) struct ArithReader {
    pub tokens: List<Token>,
    pub steps: List<ArithStep>,
    pub level: ArithLevel,
    pub outer: ArithLevels,
    pub phase: ArithPhase,
}

const BARE: ArithLevel = ArithLevel {
    sum: None,
    product: false,
};

// The step of a sign between two operands.
fn signed_step(sign: Sign) -> ArithStep
    ensures { result ≡ arith_signed_step sign }
{
    match sign {
        Sign::Plus => ArithStep::Add,
        Sign::Minus => ArithStep::Sub,
    }
}

impl ArithReader {
    /// Nothing is read yet.
    pub(crate) fn new(alloc: Global) -> ArithReader
        ensures { result ≡ arith_fresh }
    {
        ArithReader {
            tokens: List::new(alloc),
            steps: List::new(alloc),
            level: BARE,
            outer: ArithLevels::new(alloc),
            phase: ArithPhase::Opening,
        }
    }

    fn emit(&mut self, step: ArithStep) -> Result<(), OutOfMemory>
        ensures { OnOk result (self.new ≡ record self.old { steps = self.old.steps ++ step ∷ [] }) }
    {
        self.steps.add(step)
    }

    fn end_product(&mut self) -> Result<(), OutOfMemory>
        ensures { OnOk result (self.new
            ≡ record self.old { steps = self.old.steps ++ product_step self.old.level.product }) }
    {
        if self.level.product {
            self.emit(ArithStep::Mul)
        } else {
            Ok(())
        }
    }

    fn end_sum(&mut self) -> Result<(), OutOfMemory>
        ensures { OnOk result (self.new
            ≡ record self.old { steps = self.old.steps ++ arith_sum_end self.old.level }) }
    {
        self.end_product()?;
        match self.level.sum {
            None => Ok(()),
            Some(ArithSign::Leading(Sign::Plus)) => Ok(()),
            Some(ArithSign::Leading(Sign::Minus)) => self.emit(ArithStep::Negate),
            Some(ArithSign::Between(sign)) => self.emit(signed_step(sign)),
        }
    }

    // A name, a number or an open parenthesis.
    fn take_operand(&mut self, kind: Kind) -> Result<bool, OutOfMemory>
        ensures { IfOk result (λ can. Reads (arith_operand_read self.old kind) can self.new) }
    {
        match kind {
            Kind::Name(name) => {
                self.emit(ArithStep::Load { name })?;
                self.phase = ArithPhase::BehindAtom;
                Ok(true)
            }
            Kind::Number(number) => {
                self.emit(ArithStep::Constant { number })?;
                self.phase = ArithPhase::BehindAtom;
                Ok(true)
            }
            Kind::Open => {
                self.outer.push(self.level)?;
                self.level = BARE;
                self.phase = ArithPhase::Opening;
                Ok(true)
            }
            _ => Ok(false),
        }
    }

    fn take_opening(&mut self, kind: Kind) -> Result<bool, OutOfMemory>
        ensures { IfOk result (λ can. Reads (arith_opening_read self.old kind) can self.new) }
    {
        match kind {
            Kind::Signed(sign) => {
                self.level = ArithLevel {
                    sum: Some(ArithSign::Leading(sign)),
                    product: false,
                };
                self.phase = ArithPhase::Operand;
                Ok(true)
            }
            _ => self.take_operand(kind),
        }
    }

    // A closing parenthesis that belongs to the arithmetic.
    fn take_close(&mut self) -> Result<bool, OutOfMemory>
        ensures { IfOk result (λ can. Reads (arith_close_read self.old self.old.outer) can self.new) }
    {
        match self.outer.pop() {
            None => Ok(false),
            Some(level) => {
                self.end_sum()?;
                self.level = level;
                self.phase = ArithPhase::BehindAtom;
                Ok(true)
            }
        }
    }

    // What stands behind a power: an operator, or a closing parenthesis.
    fn take_behind_power(&mut self, kind: Kind) -> Result<bool, OutOfMemory>
        ensures { IfOk result (λ can. Reads (arith_power_read self.old kind) can self.new) }
    {
        match kind {
            Kind::Star => {
                self.end_product()?;
                self.level.product = true;
                self.phase = ArithPhase::Operand;
                Ok(true)
            }
            Kind::Signed(sign) => {
                self.end_sum()?;
                self.level = ArithLevel {
                    sum: Some(ArithSign::Between(sign)),
                    product: false,
                };
                self.phase = ArithPhase::Operand;
                Ok(true)
            }
            Kind::Close => self.take_close(),
            _ => Ok(false),
        }
    }

    fn take_behind_atom(&mut self, kind: Kind) -> Result<bool, OutOfMemory>
        ensures { IfOk result (λ can. Reads (arith_atom_read self.old kind) can self.new) }
    {
        match kind {
            Kind::Caret => {
                self.phase = ArithPhase::Exponent;
                Ok(true)
            }
            _ => self.take_behind_power(kind),
        }
    }

    fn take_exponent(&mut self, kind: Kind) -> Result<bool, OutOfMemory>
        ensures { IfOk result (λ can. Reads (arith_exponent_read self.old kind) can self.new) }
    {
        match kind {
            Kind::Number(Numeral::Digits(whole)) => {
                self.emit(ArithStep::Power {
                    exponent: whole.power(),
                })?;
                self.phase = ArithPhase::BehindPower;
                Ok(true)
            }
            _ => Ok(false),
        }
    }

    /// Reads a token of the arithmetic, and says whether it can have it there. After `false` or an
    /// error nothing is known of the reader.
    pub(crate) fn take(&mut self, token: Token) -> Result<bool, OutOfMemory>
        ensures { IfOk result (λ can. Reads (arith_read self.old token) can self.new) }
    {
        self.tokens.add(token)?;
        match self.phase {
            ArithPhase::Opening => self.take_opening(token.kind),
            ArithPhase::Operand => self.take_operand(token.kind),
            ArithPhase::BehindAtom => self.take_behind_atom(token.kind),
            ArithPhase::Exponent => self.take_exponent(token.kind),
            ArithPhase::BehindPower => self.take_behind_power(token.kind),
        }
    }

    /// Whether this token is the parenthesis behind the arithmetic.
    pub(crate) fn ends_at(&self, kind: Kind) -> bool
        ensures { result ≡ arith_ends_at self.now kind }
    {
        match (self.phase, kind) {
            (ArithPhase::BehindAtom, Kind::Close) => self.outer.is_empty(),
            (ArithPhase::BehindPower, Kind::Close) => self.outer.is_empty(),
            _ => false,
        }
    }

    /// The arithmetic, which ends.
    pub(crate) fn into_part(mut self) -> Result<ArithPart, OutOfMemory>
        ensures { IfOk result (λ part. part ≡ arith_part self) }
    {
        self.end_sum()?;
        Ok(ArithPart {
            tokens: self.tokens,
            steps: self.steps,
        })
    }
}
