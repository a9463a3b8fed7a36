//! The terms of a formula, by its code over a stack of lists of terms.
ghost use Rattle.std.specs.Prelude.{◌≡◌, ◌∷◌, [], Ok, IfErr, IfOk, OnOk};
ghost use Rattle.formula_parser.specs.Terms.{Terms, cross, minus, plus, raised, times};
ghost use Rattle.formula_parser.specs.Meaning.{limited};
ghost use Rattle.formula_parser.specs.Scope.{arith_term, dot_terms, named_term, only_term};
ghost use Rattle.formula_parser.specs.Stack.{Halts, act, below, operated, run_steps, top};
ghost use Rattle.formula_parser.specs.declared.evaluation.Halt.TheVariants.{OutOfMemory};

use crate::crossing::{MOST_TERMS, add_crossed};
use crate::scope::{Mention, Scope, column_at, dot_terms, only_term};
use crate::term_set::TermSet;
use formula_grammar::Step;
use frac_core::List;
use std::alloc::{AllocError, Global};
use std::marker::Model;

/// Why an evaluation has no terms.
#[derive(Clone, Copy)]
pub(crate) enum Halt {
    OutOfMemory,
    /// The operator at this byte has more than 4,096.
    TooManyTerms { at: u32 },
}

impl From<AllocError> for Halt {
    ghost from_gives = { λ _ halt. halt ≡ OutOfMemory };

    fn from(_error: AllocError) -> Halt {
        Halt::OutOfMemory
    }
}

/// Lists of terms. Contracts see them from the top downward.
#[derive(Drop)]
pub(crate) struct Stack {
    lists: Vec<TermSet>,
}

impl Model for Stack {
    ghost use Rattle.std.specs.Prelude.{List as list, Bool, reverse};

    ghost Value = { list (list (list Bool)) };

    ghost view = { λ s. reverse s.lists.items };
}

impl Stack {
    pub(crate) fn new(alloc: Global) -> Stack
        ensures { result ≡ [] }
    {
        Stack {
            lists: Vec::new(alloc),
        }
    }

    pub(crate) fn push(&mut self, list: TermSet) -> Result<(), AllocError>
        ensures { OnOk result (self.new ≡ list ∷ self.old) }
    {
        match self.lists.push(list) {
            Ok(()) => Ok(()),
            Err(_) => Err(AllocError),
        }
    }

    /// Takes the top off, or gives the empty list where there is none.
    pub(crate) fn pop(&mut self, alloc: Global) -> TermSet
        ensures top { result ≡ top self.old }
        ensures below { self.new ≡ below self.old }
    {
        match self.lists.pop() {
            Some(list) => list,
            None => TermSet::new(alloc),
        }
    }
}

#[tactic(auto, unfolding(crate::specs::Meaning::limited))]
fn limited(list: TermSet, at: u32) -> Result<TermSet, Halt>
    ensures ok { IfOk result (λ s. limited at list ≡ Ok s) }
    ensures err { IfErr result (Halts (limited at list)) }
{
    if list.as_slice().len() > MOST_TERMS {
        Err(Halt::TooManyTerms { at })
    } else {
        Ok(list)
    }
}

fn copied(alloc: Global, terms: &[List<bool>]) -> Result<List<List<bool>>, AllocError>
    ensures { IfOk result (λ ts. ts ≡ terms.now) }
{
    let mut all = List::new(alloc);
    for term in terms {
        let copy = Vec::from_slice(alloc, term.as_slice())?;
        match all.push(List::from(copy)) {
            Ok(()) => {}
            Err(_) => return Err(AllocError),
        }
    }
    Ok(all)
}

// `A : B`.
#[tactic(auto, unfolding(crate::specs::Meaning::limited))]
fn crossed(alloc: Global, left: &TermSet, right: &TermSet, at: u32) -> Result<TermSet, Halt>
    ensures ok { IfOk result (λ s. limited at (cross left.now right.now) ≡ Ok s) }
    ensures err { IfErr result (Halts (limited at (cross left.now right.now))) }
{
    let empty = TermSet::new(alloc);
    match add_crossed(alloc, empty, left.as_slice(), right.as_slice())? {
        None => Err(Halt::TooManyTerms { at }),
        Some(all) => limited(all, at),
    }
}

// `A * B`.
#[tactic(auto, unfolding(crate::specs::Meaning::limited))]
fn multiplied(alloc: Global, left: TermSet, right: &TermSet, at: u32) -> Result<TermSet, Halt>
    ensures ok { IfOk result (λ s. limited at (times left right.now) ≡ Ok s) }
    ensures err { IfErr result (Halts (limited at (times left right.now))) }
{
    let before = copied(alloc, left.as_slice())?;
    let sum = left.plus(alloc, right)?;
    match add_crossed(alloc, sum, before.as_slice(), right.as_slice())? {
        None => Err(Halt::TooManyTerms { at }),
        Some(all) => limited(all, at),
    }
}

// `A ^ exponent`, by the terms of `A` once more.
#[tactic(auto, unfolding(crate::specs::Meaning::limited))]
fn raised_by(
    alloc: Global,
    base: TermSet,
    factor: &[List<bool>],
    exponent: u32,
    at: u32,
) -> Result<TermSet, Halt>
    requires { factor.now ≡ base }
    ensures ok { IfOk result (λ s. limited at (raised exponent base) ≡ Ok s) }
    ensures err { IfErr result (Halts (limited at (raised exponent base))) }
{
    let mut power = base;
    for _ in 1..exponent {
        let before = copied(alloc, power.as_slice())?;
        match add_crossed(alloc, power, before.as_slice(), factor)? {
            None => return Err(Halt::TooManyTerms { at }),
            Some(more) => power = more,
        }
    }
    limited(power, at)
}

// `A ^ exponent`.
fn raised(alloc: Global, base: TermSet, exponent: u32, at: u32) -> Result<TermSet, Halt>
    ensures ok { IfOk result (λ s. limited at (raised exponent base) ≡ Ok s) }
    ensures err { IfErr result (Halts (limited at (raised exponent base))) }
{
    let factor = copied(alloc, base.as_slice())?;
    raised_by(alloc, base, factor.as_slice(), exponent, at)
}

// `A + B`.
fn added(alloc: Global, left: TermSet, right: &TermSet, at: u32) -> Result<TermSet, Halt>
    ensures ok { IfOk result (λ s. limited at (plus left right.now) ≡ Ok s) }
    ensures err { IfErr result (Halts (limited at (plus left right.now))) }
{
    limited(left.plus(alloc, right)?, at)
}

// `A - B`.
fn removed(alloc: Global, left: TermSet, right: &TermSet, at: u32) -> Result<TermSet, Halt>
    ensures ok { IfOk result (λ s. limited at (minus left right.now) ≡ Ok s) }
    ensures err { IfErr result (Halts (limited at (minus left right.now))) }
{
    limited(left.minus(alloc, right)?, at)
}

// What an operator makes of two operands.
fn combined(alloc: Global, left: TermSet, right: &TermSet, step: &Step) -> Result<TermSet, Halt>
    ensures ok { IfOk result (λ s. operated step.now left right.now ≡ Ok s) }
    ensures err { IfErr result (Halts (operated step.now left right.now)) }
{
    match step {
        Step::Add { at } => added(alloc, left, right, *at),
        Step::Remove { at } => removed(alloc, left, right, *at),
        Step::Multiply { at } => multiplied(alloc, left, right, *at),
        Step::Interact { at } => {
            let terms = crossed(alloc, &left, right, *at);
            drop(left);
            terms
        }
        _ => Ok(left),
    }
}

// An operator of two operands, the right one on top. What it lets go stands apart from its kinds for the check's sake.
fn operate(alloc: Global, stack: &mut Stack, step: &Step) -> Result<TermSet, Halt>
    ensures stack { OnOk result (stack.new ≡ below (below stack.old)) }
    ensures ok { IfOk result (λ s.
        operated step.now (top (below stack.old)) (top stack.old) ≡ Ok s) }
    ensures err { IfErr result
        (Halts (operated step.now (top (below stack.old)) (top stack.old))) }
{
    let right = stack.pop(alloc);
    let left = stack.pop(alloc);
    let terms = combined(alloc, left, &right, step);
    drop(right);
    terms
}

// The list of the term of one variable.
fn term_alone(alloc: Global, variables: &[Mention], one: Mention) -> Result<TermSet, AllocError>
    ensures { IfOk result (λ s. s ≡ only_term variables.now one ∷ []) }
{
    let term = only_term(alloc, variables, one)?;
    TermSet::new(alloc).push(alloc, term)
}

// What a step puts on the stack, in place of its operands.
fn act(
    alloc: Global,
    scope: &Scope,
    variables: &[Mention],
    stack: &mut Stack,
    step: &Step,
) -> Result<(), Halt>
    ensures ok { let s = scope.now in let vs = variables.now in OnOk result
        (act (named_term s.text.now s.names.now vs) (arith_term s.text.now s.names.now s.ariths.now vs) (dot_terms vs s.others.now) step.now stack.old
        ≡ Ok stack.new) }
    ensures err { let s = scope.now in let vs = variables.now in IfErr result
        (Halts (act (named_term s.text.now s.names.now vs) (arith_term s.text.now s.names.now s.ariths.now vs) (dot_terms vs s.others.now) step.now stack.old)) }
{
    let list = match step {
        Step::Load { name, as_factor } => {
            let column = column_at(scope.text, scope.names, *name);
            let as_factor = *as_factor;
            term_alone(alloc, variables, Mention { column, as_factor })?
        }
        Step::LoadArith { part } => {
            let one = scope.computed(alloc, part)?;
            term_alone(alloc, variables, one)?
        }
        Step::LoadAll => dot_terms(alloc, variables, scope.others)?,
        Step::Nothing => TermSet::new(alloc),
        Step::Raise { exponent, at } => raised(alloc, stack.pop(alloc), *exponent, *at)?,
        _ => operate(alloc, stack, step)?,
    };
    stack.push(list)?;
    Ok(())
}

/// The terms that a formula's steps leave.
pub(crate) fn evaluate(
    alloc: Global,
    scope: &Scope,
    variables: &[Mention],
    steps: &[Step],
) -> Result<TermSet, Halt>
    ensures ok { let s = scope.now in let vs = variables.now in IfOk result (λ ts.
        run_steps (named_term s.text.now s.names.now vs) (arith_term s.text.now s.names.now s.ariths.now vs) (dot_terms vs s.others.now) steps.now
        ≡ Ok ts) }
    ensures err { let s = scope.now in let vs = variables.now in IfErr result
        (Halts (run_steps (named_term s.text.now s.names.now vs) (arith_term s.text.now s.names.now s.ariths.now vs) (dot_terms vs s.others.now) steps.now)) }
{
    let mut stack = Stack::new(alloc);
    for step in steps {
        act(alloc, scope, variables, &mut stack, step)?;
    }
    Ok(stack.pop(alloc))
}
