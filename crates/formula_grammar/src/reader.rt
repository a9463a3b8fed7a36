//! Formulas, from tokens to code: a machine whose phase tells which tokens may follow.
ghost use Rattle.std.specs.Prelude.{◌≡◌, ◌++◌, ◌∷◌, [], None, IfErr, IfOk, OnOk};
ghost use Rattle.formula_grammar.specs.ArithMachine.{arith_fresh, arith_part};
ghost use Rattle.formula_grammar.specs.Codes.{signed_step};
ghost use Rattle.formula_grammar.specs.Faults.{EndText, IsFault, IsReading};
ghost use Rattle.formula_grammar.specs.Machine.{atom_read, close_read, end_read, exponent_read, factor_read, first_step, inter_end, intercept_read, item_read, inside_read, next_phase, offset_read, opening_read, operand_read, operator_sign, phase_read, power_read, product_end, response_read, sign_read, smooth_end_read, part_read, sum_end, token_read, with_sign, Reads};
ghost use Rattle.formula_grammar.specs.Readers.{fresh, reading_in};

use crate::arith_reader::ArithReader;
use crate::fault::ReadFault;
use crate::levels::{Level, Levels, Operator};
use crate::limits::Limits;
use crate::reading::{ArithPart, Reading, SmoothPart, Step};
use crate::token::{Kind, Numeral, Sign, Span, Token, Whole};
use frac_core::{List, OutOfMemory};
use std::alloc::Global;

/// What a half read formula waits for.
#[derive(Clone, Copy)]
pub(crate) enum Phase {
    Response,
    BeforeTilde,
    /// A product, or a sign or an item where one may stand.
    Opening,
    Operand,
    FactorOpen,
    FactorName,
    FactorClose(Span),
    /// An operator, `^` among them.
    BehindAtom,
    /// The exponent of the `^` at this byte.
    Exponent(u32),
    BehindPower,
    SmoothOpen,
    SmoothName,
    SmoothComma(Span),
    SmoothLambda(Span),
    SmoothClose(SmoothPart),
    BehindItem,
    ArithOpen,
    /// An arithmetic, or the parenthesis behind it.
    ArithInside,
    OffsetOpen,
    /// The same in an offset.
    OffsetInside,
    Ended,
}

/// A half read formula: what stands fast of it, and the operators that wait for their right operand.
#[derive(Drop)]
pub(crate) struct Reader {
    pub response: Span,
    pub intercept: bool,
    pub smooths: List<SmoothPart>,
    pub offsets: List<ArithPart>,
    pub steps: List<Step>,
    /// The arithmetic that is half read, if one is.
    pub arith: ArithReader,
    pub level: Level,
    pub outer: Levels,
    pub phase: Phase,
}

const BARE: Level = Level {
    sum: None,
    product: None,
    inter: None,
};

fn signed_step(sign: Sign, at: u32) -> Step
    ensures { result ≡ signed_step sign at }
{
    match sign {
        Sign::Plus => Step::Add { at },
        Sign::Minus => Step::Remove { at },
    }
}

fn operator_sign(operator: Option<Operator>) -> Sign
    ensures { result ≡ operator_sign operator }
{
    match operator {
        None => Sign::Plus,
        Some(operator) => operator.sign,
    }
}

fn with_sign(sign: Sign, one: bool) -> bool
    ensures { result ≡ with_sign sign one }
{
    match sign {
        Sign::Plus => one,
        Sign::Minus => !one,
    }
}

// The phase behind a token that does nothing else.
fn next_phase(phase: Phase, kind: Kind) -> Option<Phase>
    ensures { result ≡ next_phase phase kind }
{
    match (phase, kind) {
        (Phase::BeforeTilde, Kind::Tilde) => Some(Phase::Opening),
        (Phase::ArithOpen, Kind::Open) => Some(Phase::ArithInside),
        (Phase::OffsetOpen, Kind::Open) => Some(Phase::OffsetInside),
        (Phase::FactorOpen, Kind::Open) => Some(Phase::FactorName),
        (Phase::FactorName, Kind::Name(name)) => Some(Phase::FactorClose(name)),
        (Phase::SmoothOpen, Kind::Open) => Some(Phase::SmoothName),
        (Phase::SmoothName, Kind::Name(name)) => Some(Phase::SmoothComma(name)),
        (Phase::SmoothComma(name), Kind::Comma) => Some(Phase::SmoothLambda(name)),
        (Phase::SmoothLambda(name), Kind::Number(lambda)) => {
            Some(Phase::SmoothClose(SmoothPart { name, lambda }))
        }
        _ => None,
    }
}

impl Reader {
    /// Nothing is read yet.
    pub(crate) fn new(alloc: Global) -> Reader
        ensures { result ≡ fresh }
    {
        Reader {
            response: Span { start: 0, len: 0 },
            intercept: true,
            smooths: List::new(alloc),
            offsets: List::new(alloc),
            steps: List::new(alloc),
            arith: ArithReader::new(alloc),
            level: BARE,
            outer: Levels::new(alloc),
            phase: Phase::Response,
        }
    }

    fn emit(&mut self, step: Step) -> Result<(), OutOfMemory>
        ensures { OnOk result (self.new ≡ record self.old { steps = self.old.steps ++ step ∷ [] }) }
    {
        self.steps.add(step)
    }

    fn end_inter(&mut self) -> Result<(), OutOfMemory>
        ensures { OnOk result (self.new
            ≡ record self.old { steps = self.old.steps ++ inter_end self.old.level }) }
    {
        match self.level.inter {
            None => Ok(()),
            Some(at) => self.emit(Step::Interact { at }),
        }
    }

    fn end_product(&mut self) -> Result<(), OutOfMemory>
        ensures { OnOk result (self.new
            ≡ record self.old { steps = self.old.steps ++ product_end self.old.level }) }
    {
        self.end_inter()?;
        match self.level.product {
            None => Ok(()),
            Some(at) => self.emit(Step::Multiply { at }),
        }
    }

    fn end_sum(&mut self) -> Result<(), OutOfMemory>
        ensures { OnOk result (self.new
            ≡ record self.old { steps = self.old.steps ++ sum_end self.old.level }) }
    {
        self.end_product()?;
        match self.level.sum {
            None => Ok(()),
            Some(operator) => self.emit(signed_step(operator.sign, operator.at)),
        }
    }

    // The empty list, where an item stands first.
    fn begin_item(&mut self) -> Result<(), OutOfMemory>
        ensures { OnOk result (self.new
            ≡ record self.old { steps = self.old.steps ++ first_step self.old.level.sum }) }
    {
        match self.level.sum {
            None => self.emit(Step::Nothing),
            Some(_) => Ok(()),
        }
    }

    // A name, `.`, `factor` or an open parenthesis.
    fn take_operand(&mut self, kind: Kind) -> Result<bool, OutOfMemory>
        ensures { IfOk result (λ can. Reads (operand_read self.old kind) can self.new) }
    {
        match kind {
            Kind::Name(name) => {
                self.emit(Step::Load {
                    name,
                    as_factor: false,
                })?;
                self.phase = Phase::BehindAtom;
                Ok(true)
            }
            Kind::Point => {
                self.emit(Step::LoadAll)?;
                self.phase = Phase::BehindAtom;
                Ok(true)
            }
            Kind::FactorWord => {
                self.phase = Phase::FactorOpen;
                Ok(true)
            }
            Kind::ArithWord => {
                self.phase = Phase::ArithOpen;
                Ok(true)
            }
            Kind::Open => {
                self.outer.push(self.level)?;
                self.level = BARE;
                self.phase = Phase::Opening;
                Ok(true)
            }
            _ => Ok(false),
        }
    }

    // A leading sign, where none stands yet.
    fn take_leading_sign(&mut self, sign: Sign, at: u32) -> Result<bool, OutOfMemory>
        ensures { IfOk result (λ can.
            Reads (sign_read self.old self.old.level.sum sign at) can self.new) }
    {
        match self.level.sum {
            Some(_) => Ok(false),
            None => {
                self.emit(Step::Nothing)?;
                self.level = Level {
                    sum: Some(Operator { sign, at }),
                    product: None,
                    inter: None,
                };
                self.phase = Phase::Opening;
                Ok(true)
            }
        }
    }

    // The item `1`, or else `0`.
    fn take_intercept(&mut self, one: bool) -> Result<bool, OutOfMemory>
        ensures { IfOk result (λ can. Reads (intercept_read self.old one) can self.new) }
    {
        if !self.outer.is_empty() {
            return Ok(false);
        }
        self.begin_item()?;
        self.intercept = with_sign(operator_sign(self.level.sum), one);
        self.level = BARE;
        self.phase = Phase::BehindItem;
        Ok(true)
    }

    // `qss` or `offset` before its parenthesis, which this phase waits for.
    fn take_part(&mut self, phase: Phase) -> Result<bool, OutOfMemory>
        ensures { IfOk result (λ can. Reads (part_read self.old phase) can self.new) }
    {
        if !self.outer.is_empty() {
            return Ok(false);
        }
        match operator_sign(self.level.sum) {
            Sign::Minus => Ok(false),
            Sign::Plus => {
                self.begin_item()?;
                self.level = BARE;
                self.phase = phase;
                Ok(true)
            }
        }
    }

    fn take_opening(&mut self, at: u32, kind: Kind) -> Result<bool, OutOfMemory>
        ensures { IfOk result (λ can. Reads (opening_read self.old at kind) can self.new) }
    {
        match kind {
            Kind::Signed(sign) => self.take_leading_sign(sign, at),
            Kind::Number(Numeral::Digits(Whole::Zero)) => self.take_intercept(false),
            Kind::Number(Numeral::Digits(Whole::Unity)) => self.take_intercept(true),
            Kind::QssWord => self.take_part(Phase::SmoothOpen),
            Kind::OffsetWord => self.take_part(Phase::OffsetOpen),
            _ => self.take_operand(kind),
        }
    }

    fn take_close(&mut self) -> Result<bool, OutOfMemory>
        ensures { IfOk result (λ can. Reads (close_read self.old self.old.outer) can self.new) }
    {
        match self.outer.pop() {
            None => Ok(false),
            Some(level) => {
                self.end_sum()?;
                self.level = level;
                self.phase = Phase::BehindAtom;
                Ok(true)
            }
        }
    }

    // The end of the text, behind a product.
    fn take_end(&mut self) -> Result<bool, OutOfMemory>
        ensures { IfOk result (λ can. Reads (end_read self.old) can self.new) }
    {
        if !self.outer.is_empty() {
            return Ok(false);
        }
        self.end_sum()?;
        self.level = BARE;
        self.phase = Phase::Ended;
        Ok(true)
    }

    // What stands behind a power: an operator, a closing parenthesis, or the end.
    fn take_behind_power(&mut self, at: u32, kind: Kind) -> Result<bool, OutOfMemory>
        ensures { IfOk result (λ can. Reads (power_read self.old at kind) can self.new) }
    {
        match kind {
            Kind::Colon => {
                self.end_inter()?;
                self.level.inter = Some(at);
                self.phase = Phase::Operand;
                Ok(true)
            }
            Kind::Star => {
                self.end_product()?;
                self.level.product = Some(at);
                self.level.inter = None;
                self.phase = Phase::Operand;
                Ok(true)
            }
            Kind::Signed(sign) => {
                self.end_sum()?;
                self.level = Level {
                    sum: Some(Operator { sign, at }),
                    product: None,
                    inter: None,
                };
                self.phase = Phase::Opening;
                Ok(true)
            }
            Kind::Close => self.take_close(),
            Kind::End => self.take_end(),
            _ => Ok(false),
        }
    }

    fn take_behind_atom(&mut self, at: u32, kind: Kind) -> Result<bool, OutOfMemory>
        ensures { IfOk result (λ can. Reads (atom_read self.old at kind) can self.new) }
    {
        match kind {
            Kind::Caret => {
                self.phase = Phase::Exponent(at);
                Ok(true)
            }
            _ => self.take_behind_power(at, kind),
        }
    }

    fn take_behind_item(&mut self, at: u32, kind: Kind) -> bool
        ensures { Reads (item_read self.old at kind) result self.new }
    {
        match kind {
            Kind::Signed(sign) => {
                self.level = Level {
                    sum: Some(Operator { sign, at }),
                    product: None,
                    inter: None,
                };
                self.phase = Phase::Opening;
                true
            }
            Kind::End => {
                self.phase = Phase::Ended;
                true
            }
            _ => false,
        }
    }

    fn take_exponent(&mut self, caret: u32, kind: Kind) -> Result<bool, OutOfMemory>
        ensures { IfOk result (λ can. Reads (exponent_read self.old caret kind) can self.new) }
    {
        match kind {
            Kind::Number(Numeral::Digits(whole)) => {
                self.emit(Step::Raise {
                    exponent: whole.power(),
                    at: caret,
                })?;
                self.phase = Phase::BehindPower;
                Ok(true)
            }
            _ => Ok(false),
        }
    }

    fn take_response(&mut self, kind: Kind) -> bool
        ensures { Reads (response_read self.old kind) result self.new }
    {
        match kind {
            Kind::Name(name) => {
                self.response = name;
                self.phase = Phase::BeforeTilde;
                true
            }
            _ => false,
        }
    }

    fn take_factor_close(&mut self, name: Span, kind: Kind) -> Result<bool, OutOfMemory>
        ensures { IfOk result (λ can. Reads (factor_read self.old name kind) can self.new) }
    {
        match kind {
            Kind::Close => {
                self.emit(Step::Load {
                    name,
                    as_factor: true,
                })?;
                self.phase = Phase::BehindAtom;
                Ok(true)
            }
            _ => Ok(false),
        }
    }

    fn take_smooth_close(&mut self, smooth: SmoothPart, kind: Kind) -> Result<bool, OutOfMemory>
        ensures { IfOk result (λ can. Reads (smooth_end_read self.old smooth kind) can self.new) }
    {
        match kind {
            Kind::Close => {
                self.smooths.add(smooth)?;
                self.phase = Phase::BehindItem;
                Ok(true)
            }
            _ => Ok(false),
        }
    }

    // The arithmetic that was read, which ends.
    fn end_arith(&mut self, alloc: Global) -> Result<ArithPart, OutOfMemory>
        ensures part { IfOk result (λ part. part ≡ arith_part self.old.arith) }
        ensures fresh { self.new ≡ record self.old { arith = arith_fresh } }
    {
        std::mem::replace(&mut self.arith, ArithReader::new(alloc)).into_part()
    }

    // A token inside `I( )`, or the parenthesis behind it.
    fn take_arith(&mut self, alloc: Global, token: Token) -> Result<bool, OutOfMemory>
        ensures { IfOk result (λ can. Reads (inside_read self.old token) can self.new) }
    {
        if !self.arith.ends_at(token.kind) {
            return self.arith.take(token);
        }
        let part = self.end_arith(alloc)?;
        self.emit(Step::LoadArith { part })?;
        self.phase = Phase::BehindAtom;
        Ok(true)
    }

    // A token inside `offset( )`, or the parenthesis behind it.
    fn take_offset(&mut self, alloc: Global, token: Token) -> Result<bool, OutOfMemory>
        ensures { IfOk result (λ can. Reads (offset_read self.old token) can self.new) }
    {
        if !self.arith.ends_at(token.kind) {
            return self.arith.take(token);
        }
        let part = self.end_arith(alloc)?;
        self.offsets.add(part)?;
        self.phase = Phase::BehindItem;
        Ok(true)
    }

    fn take_other(&mut self, kind: Kind) -> bool
        ensures { Reads (phase_read self.old (next_phase self.old.phase kind)) result self.new }
    {
        match next_phase(self.phase, kind) {
            None => false,
            Some(phase) => {
                self.phase = phase;
                true
            }
        }
    }

    /// Reads a token, and says whether a formula can have it there. After `false` or an error
    /// nothing is known of the reader.
    pub(crate) fn take(&mut self, alloc: Global, token: Token) -> Result<bool, OutOfMemory>
        ensures { IfOk result (λ can. Reads (token_read self.old token) can self.new) }
    {
        let Token { kind, at } = token;
        match self.phase {
            Phase::Response => Ok(self.take_response(kind)),
            Phase::Opening => self.take_opening(at, kind),
            Phase::Operand => self.take_operand(kind),
            Phase::FactorClose(name) => self.take_factor_close(name, kind),
            Phase::BehindAtom => self.take_behind_atom(at, kind),
            Phase::Exponent(caret) => self.take_exponent(caret, kind),
            Phase::BehindPower => self.take_behind_power(at, kind),
            Phase::SmoothClose(smooth) => self.take_smooth_close(smooth, kind),
            Phase::BehindItem => Ok(self.take_behind_item(at, kind)),
            Phase::ArithInside => self.take_arith(alloc, token),
            Phase::OffsetInside => self.take_offset(alloc, token),
            _ => Ok(self.take_other(kind)),
        }
    }

    // Reads the tokens of a text up to their first fault. It stands apart from the reader's maker for the check's
    // sake: each way out of a function that owns a reader lets all parts of it go.
    fn scan(&mut self, alloc: Global, tokens: &[Token]) -> Result<(), ReadFault>
        requires end { EndText tokens.now }
        requires fresh { self.old ≡ fresh }
        ensures read { OnOk result (IsReading tokens.now (reading_in self.new)) }
        ensures fault { IfErr result (IsFault tokens.now) }
    {
        let mut limits = Limits::new();
        for token in tokens {
            let can_stand = self.take(alloc, *token)?;
            if !can_stand {
                return Err(ReadFault::Syntax { offset: token.at });
            }
            match limits.pass(*token) {
                None => {}
                Some(fault) => return Err(fault),
            }
        }
        Ok(())
    }

    // What was read.
    fn into_reading(self) -> Reading
        ensures { result ≡ reading_in self }
    {
        Reading {
            response: self.response,
            intercept: self.intercept,
            steps: self.steps,
            smooths: self.smooths,
            offsets: self.offsets,
        }
    }
}

/// Reads the tokens of a text as a formula.
///
/// The answer is the code of the one formula that has these tokens, or else their first fault from
/// left to right: `Syntax` at the first token that no formula can have there, where the end of the
/// text counts as a token; `TooDeep` at the 65th parenthesis that is open at once; `PowerRange` at
/// an exponent whose value isn't 1 to 8; `NumberTooWide` at a lambda, or at a number of an arithmetic
/// that is no exponent, that `Frac128` doesn't hold.
/// `OutOfMemory` may come at any token. The reader keeps its own stack: deep or long formulas take
/// no more of the program's.
pub fn read(alloc: Global, tokens: &[Token]) -> Result<Reading, ReadFault>
    requires { EndText tokens.now }
    ensures read { IfOk result (IsReading tokens.now) }
    ensures fault { IfErr result (IsFault tokens.now) }
{
    let mut reader = Reader::new(alloc);
    match reader.scan(alloc, tokens) {
        Ok(()) => Ok(reader.into_reading()),
        Err(fault) => {
            drop(reader);
            Err(fault)
        }
    }
}
