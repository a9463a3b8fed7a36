//! The names in a formula as columns of the table.
ghost use Rattle.std.specs.Prelude.{◌≡◌, map, option_map, IfOk};
ghost use Rattle.formula_parser.specs.Scope.{name_at};
ghost use Rattle.formula_parser.specs.Parsed.{arith_of_column, computed_name, is_unknown, meant_smooth, members, spoken_term, spoken_variable, told_smooth, unknown_name};

use crate::arithmetics::{copied, push};
use crate::formula::{Smooth, Term, Variable};
use crate::scope::{Mention, Scope, column_at, column_of, piece};
use formula_grammar::{Kind, SmoothPart, Token};
use frac_core::{Arith, List, OutOfMemory, Text};
use std::alloc::{AllocError, Global};

fn is_unknown(text: &[u8], names: &[Text], kind: Kind) -> bool
    ensures { result ≡ is_unknown text.now names.now kind }
{
    match kind {
        Kind::Name(span) => column_of(names, piece(text, span)).is_none(),
        _ => false,
    }
}

/// Where the first name stands that is no column's.
pub(crate) fn unknown_name(text: &[u8], names: &[Text], tokens: &[Token]) -> Option<u32>
    ensures { result ≡ unknown_name text.now names.now tokens.now }
{
    for token in tokens {
        if is_unknown(text, names, token.kind) {
            return Some(token.at);
        }
    }
    None
}

/// The name of a column.
pub(crate) fn named(alloc: Global, names: &[Text], column: usize) -> Result<Text, OutOfMemory>
    ensures { IfOk result (λ t. t ≡ name_at names.now column) }
{
    match names.get(column) {
        Some(name) => Text::new(alloc, name.as_str()),
        None => Text::new(alloc, ""),
    }
}

// The variables of a term, in their order.
fn members(alloc: Global, variables: &[Mention], term: &[bool]) -> Result<Vec<Mention>, AllocError>
    ensures { IfOk result (λ v. v.items ≡ members variables.now term.now) }
{
    variables
        .iter()
        .zip(term)
        .filter(|(_, is_in)| **is_in)
        .map(|(one, _)| *one)
        .collect(alloc)
}

// `I(`, the text of an arithmetic and `)`.
fn computed_name(alloc: Global, arith: &Arith) -> Result<Text, OutOfMemory>
    ensures { IfOk result (λ t. t ≡ computed_name arith.now) }
{
    let mut name = String::new(alloc);
    push(&mut name, "I(")?;
    push(&mut name, arith.text.as_str())?;
    push(&mut name, ")")?;
    Ok(Text::from(name))
}

// A variable by the name of its column, or by its arithmetic.
fn spoken_variable(
    alloc: Global,
    names: &[Text],
    ariths: &[Arith],
    one: Mention,
) -> Result<Variable, OutOfMemory>
    ensures { IfOk result (λ v. v ≡ spoken_variable names.now ariths.now one) }
{
    match arith_of_column(names, ariths, one.column) {
        None => Ok(Variable {
            name: named(alloc, names, one.column)?,
            as_factor: one.as_factor,
            arith: None,
        }),
        Some(arith) => Ok(Variable {
            name: computed_name(alloc, arith)?,
            as_factor: one.as_factor,
            arith: Some(copied(alloc, arith)?),
        }),
    }
}

// The arithmetic that counts as a column behind those of the table.
fn arith_of_column<'a>(names: &[Text], ariths: &'a [Arith], column: usize) -> Option<&'a Arith>
    ensures { option_map (λ a. a.now) result ≡ arith_of_column names.now ariths.now column }
{
    if column < names.len() {
        None
    } else {
        ariths.get(column - names.len())
    }
}

fn spoken_variables(
    alloc: Global,
    names: &[Text],
    ariths: &[Arith],
    variables: &[Mention],
) -> Result<List<Variable>, OutOfMemory>
    ensures { IfOk result (λ vs. vs ≡ map (spoken_variable names.now ariths.now) variables.now) }
{
    let mut all = List::new(alloc);
    for one in variables {
        all.add(spoken_variable(alloc, names, ariths, *one)?)?;
    }
    Ok(all)
}

fn spoken_term(
    alloc: Global,
    scope: &Scope,
    variables: &[Mention],
    term: &[bool],
) -> Result<Term, OutOfMemory>
    ensures { IfOk result (λ t. t ≡ spoken_term scope.now.names.now scope.now.ariths.now variables.now term.now) }
{
    match members(alloc, variables, term) {
        Err(_) => Err(OutOfMemory),
        Ok(members) => Ok(Term {
            variables: spoken_variables(alloc, scope.names, scope.ariths, members.as_slice())?,
        }),
    }
}

/// Terms by the names of their variables.
pub(crate) fn spoken_terms(
    alloc: Global,
    scope: &Scope,
    variables: &[Mention],
    terms: &[List<bool>],
) -> Result<List<Term>, OutOfMemory>
    ensures { IfOk result (λ ts. ts ≡ map (spoken_term scope.now.names.now scope.now.ariths.now variables.now) terms.now) }
{
    let mut all = List::new(alloc);
    for term in terms {
        match all.push(spoken_term(alloc, scope, variables, term.as_slice())?) {
            Ok(()) => {}
            Err(_) => return Err(OutOfMemory),
        }
    }
    Ok(all)
}

/// Smooths by the names of their columns, with the values of their lambdas.
pub(crate) fn spoken_smooths(
    alloc: Global,
    text: &[u8],
    names: &[Text],
    parts: &[SmoothPart],
) -> Result<List<Smooth>, OutOfMemory>
    ensures { IfOk result (λ ss. map told_smooth ss ≡ map (meant_smooth text.now names.now) parts.now) }
{
    let mut all = List::new(alloc);
    for part in parts {
        let smooth = Smooth {
            name: named(alloc, names, column_at(text, names, part.name))?,
            lambda: part.lambda.value(),
        };
        match all.push(smooth) {
            Ok(()) => {}
            Err(_) => return Err(OutOfMemory),
        }
    }
    Ok(all)
}
