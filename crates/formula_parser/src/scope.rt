//! What the names of a formula stand for, among them `.`, which is all columns but the response.
ghost use Rattle.std.specs.Prelude.{◌≡◌, false, map, IfOk};
ghost use Rattle.std.specs.List.{list_any};
ghost use Rattle.formula_parser.specs.Scope.{column_at, column_of, computed, dot_terms, each_once, loaded, only_term, other_columns, piece, same, variable, variables_of, with_variable};

use crate::arithmetics::{Source, place_of};
use crate::term_set::TermSet;
use formula_grammar::{ArithPart, Span, Step};
use frac_core::{Arith, Text};
use std::alloc::{AllocError, Global};

/// A variable as a column of the table, counted from 0, and whether it was written with `factor`.
/// The arithmetics of the formula count as columns behind those of the table.
#[derive(Clone, Copy)]
pub(crate) struct Mention {
    pub column: usize,
    pub as_factor: bool,
}

/// What the names of a formula stand for.
#[derive(Clone, Copy)]
pub(crate) struct Scope<'a> {
    /// The formula.
    pub text: &'a [u8],
    /// The names of the table's columns.
    pub names: &'a [Text],
    /// The columns that `.` stands for.
    pub others: &'a [usize],
    /// The arithmetics of the formula, each text once.
    pub ariths: &'a [Arith],
}

impl Scope<'_> {
    /// The variable of an arithmetic.
    pub(crate) fn computed(&self, alloc: Global, part: &ArithPart) -> Result<Mention, AllocError>
        ensures { let s = self.now in IfOk result (λ v. v
            ≡ computed s.text.now s.names.now s.ariths.now part.now) }
    {
        let source = Source {
            text: self.text,
            names: self.names,
        };
        match place_of(alloc, &source, self.ariths, part) {
            Ok(place) => Ok(Mention {
                column: self.names.len() + place,
                as_factor: false,
            }),
            Err(_) => Err(AllocError),
        }
    }
}

/// The piece of a text at a span, as far as the text goes.
pub(crate) fn piece(text: &[u8], span: Span) -> &[u8]
    ensures { result.now ≡ piece text.entry.now span }
{
    let rest = text.get(span.start as usize..).unwrap_or(&[]);
    rest.get(..span.len as usize).unwrap_or(rest)
}

/// The first column of a name.
pub(crate) fn column_of(names: &[Text], name: &[u8]) -> Option<usize>
    ensures { result ≡ column_of names.now name.now }
{
    names
        .iter()
        .position(|other| other.as_str().as_bytes() == name)
}

pub(crate) fn column_at(text: &[u8], names: &[Text], span: Span) -> usize
    ensures { result ≡ column_at text.now names.now span }
{
    column_of(names, piece(text, span)).unwrap_or(0)
}

fn is_same(one: Mention, other: Mention) -> bool
    ensures { result ≡ same one other }
{
    one.column == other.column && one.as_factor == other.as_factor
}

/// The columns that `.` stands for: all but the response's.
pub(crate) fn other_columns(
    alloc: Global,
    count: usize,
    response: usize,
) -> Result<Vec<usize>, AllocError>
    ensures { IfOk result (λ v. v.items ≡ other_columns count response) }
{
    (0..count)
        .filter(|column| *column != response)
        .collect(alloc)
}

fn is_among(found: &[Mention], one: Mention) -> bool
    ensures { result ≡ list_any (λ w. same w one) found.now }
{
    found.iter().any(|other| is_same(*other, one))
}

// The variables with one more, where it isn't there yet.
fn add_variable(mut found: Vec<Mention>, one: Mention) -> Result<Vec<Mention>, AllocError>
    ensures { IfOk result (λ v. v.items ≡ with_variable found.items one) }
{
    if is_among(found.as_slice(), one) {
        return Ok(found);
    }
    found.push(one)?;
    Ok(found)
}

fn add_columns(mut found: Vec<Mention>, columns: &[usize]) -> Result<Vec<Mention>, AllocError>
    ensures { IfOk result (λ v. v.items
        ≡ each_once found.items (map (λ c. variable c false) columns.now)) }
{
    for column in columns {
        let one = Mention {
            column: *column,
            as_factor: false,
        };
        found = add_variable(found, one)?;
    }
    Ok(found)
}

fn add_loaded(
    alloc: Global,
    scope: &Scope,
    found: Vec<Mention>,
    step: &Step,
) -> Result<Vec<Mention>, AllocError>
    ensures { let s = scope.now in IfOk result (λ v. v.items
        ≡ each_once found.items (loaded s.text.now s.names.now s.others.now s.ariths.now step.now)) }
{
    match step {
        Step::Load { name, as_factor } => {
            let column = column_at(scope.text, scope.names, *name);
            let as_factor = *as_factor;
            add_variable(found, Mention { column, as_factor })
        }
        Step::LoadArith { part } => add_variable(found, scope.computed(alloc, part)?),
        Step::LoadAll => add_columns(found, scope.others),
        _ => Ok(found),
    }
}

/// The variables that steps load, in the order in which each first stands.
pub(crate) fn variables_of(
    alloc: Global,
    scope: &Scope,
    steps: &[Step],
) -> Result<Vec<Mention>, AllocError>
    ensures { let s = scope.now in IfOk result (λ v. v.items
        ≡ variables_of s.text.now s.names.now s.others.now s.ariths.now steps.now) }
{
    let mut found = Vec::new(alloc);
    for step in steps {
        found = add_loaded(alloc, scope, found, step)?;
    }
    Ok(found)
}

/// The term of one variable.
pub(crate) fn only_term(
    alloc: Global,
    variables: &[Mention],
    one: Mention,
) -> Result<Vec<bool>, AllocError>
    ensures { IfOk result (λ v. v.items ≡ only_term variables.now one) }
{
    variables
        .iter()
        .map(|other| is_same(*other, one))
        .collect(alloc)
}

/// The terms of `.`.
pub(crate) fn dot_terms(
    alloc: Global,
    variables: &[Mention],
    others: &[usize],
) -> Result<TermSet, AllocError>
    ensures { IfOk result (λ s. s ≡ dot_terms variables.now others.now) }
{
    let mut all = TermSet::new(alloc);
    for column in others {
        let one = Mention {
            column: *column,
            as_factor: false,
        };
        all = all.push(alloc, only_term(alloc, variables, one)?)?;
    }
    Ok(all)
}
