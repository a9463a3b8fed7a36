//! The variables of terms with their values and codings.

ghost use Rattle.std.specs.Prelude.{◌≡◌, ◌<◌, ◌^◌, All, IfOk, IfSome, length, map};
ghost use Rattle.std.specs.List.{list_all, list_any};
ghost use Rattle.data_frame.specs.Views.{lent_column};
ghost use Rattle.design_matrix.specs.Cells.{column_of};
ghost use Rattle.design_matrix.specs.CodedVariable.{coded_term, coded_variable, coding_of, is_factor, is_in_model, is_spanned, is_text, is_whole_factor, printed_name, same_bool, same_variable, same_variables, values_by, values_in, width, without};
ghost use Rattle.design_matrix.specs.Computed.{CanEvaluate};
ghost use Rattle.design_matrix.specs.Lists.{each};
ghost use Rattle.design_matrix.specs.Views.{coded_seen, values_seen};

use crate::cells::column;
use crate::computed::{Computed, compute};
use crate::levels::Levels;
use contrasts::Coding;
use data_frame::{Column, Frame};
use formula_parser::{Formula, Term, Variable};
use frac_core::{Frac128, Text};
use std::alloc::{AllocError, Global};

/// The values of a variable at the kept records.
#[derive(Drop)]
pub(crate) enum Values<'a> {
    /// The cells of a column of numbers, and the records that are kept.
    Numbers(&'a [Option<Frac128>], &'a [u32]),
    Levels(Levels),
    /// What an arithmetic comes to.
    Computed(Computed<'a>),
}

/// A variable of a term.
#[derive(Drop)]
pub(crate) struct CodedVariable<'a> {
    /// The name as it is printed.
    pub(crate) name: Text,
    /// The coding, where the variable is a factor.
    pub(crate) coding: Coding,
    pub(crate) values: Values<'a>,
}

impl CodedVariable<'_> {
    /// The number of the variable's columns.
    pub(crate) fn width(&self) -> u32
        ensures { result ≡ width (coded_seen self.now) }
    {
        match &self.values {
            Values::Numbers(..) => 1,
            Values::Computed(_) => 1,
            Values::Levels(levels) => match levels.texts.len() {
                0 => 0,
                count => contrasts::width(self.coding, count as u32),
            },
        }
    }
}

fn values_of<'a>(
    alloc: Global,
    as_factor: bool,
    column: Column<'a>,
    records: &'a [u32],
) -> Result<Values<'a>, AllocError>
    requires { length records.now < 2 ^ 32 }
    ensures { IfOk result (λ v. values_seen v ≡ values_in as_factor (lent_column column.entry) records.now) }
{
    match column {
        Column::Factor(cells) => Ok(Values::Levels(Levels::of(alloc, cells, records)?)),
        Column::Numbers(cells) => {
            if as_factor {
                Ok(Values::Levels(Levels::of(alloc, cells, records)?))
            } else {
                Ok(Values::Numbers(cells, records))
            }
        }
        Column::TooWide { .. } => Ok(Values::Numbers(&[], &[])),
    }
}

// The values of a variable: those of its column, or what its arithmetic comes to.
fn values_by<'a>(
    alloc: Global,
    frame: &'a Frame,
    variable: &'a Variable,
    records: &'a [u32],
) -> Result<Values<'a>, AllocError>
    requires counted { length records.now < 2 ^ 32 }
    requires usable { IfSome variable.now.arith CanEvaluate }
    ensures { IfOk result (λ v. values_seen v ≡ values_by frame.entry.now variable.entry.now variable.entry.now.arith records.entry.now) }
{
    match &variable.arith {
        Some(arith) => Ok(Values::Computed(compute(alloc, frame, arith, records)?)),
        None => {
            let found = column(frame, variable.name.as_str());
            values_of(alloc, variable.as_factor, found, records)
        }
    }
}

pub(crate) fn print_name(alloc: Global, as_factor: bool, name: &str) -> Result<Text, AllocError>
    ensures { IfOk result (λ t. t ≡ printed_name as_factor name.now) }
{
    if as_factor {
        Ok(Text::from(format!(in alloc; "factor({name})")?))
    } else {
        Ok(Text::from(String::from_str(alloc, name)?))
    }
}

/// Whether a column is a factor.
pub(crate) fn is_text(column: &Column<'_>) -> bool
    ensures { result ≡ is_text (lent_column column.now) }
{
    match *column {
        Column::Factor(_) => true,
        Column::Numbers(_) => false,
        Column::TooWide { .. } => false,
    }
}

#[tactic(auto, unfolding(crate::specs::CodedVariable::is_factor))]
fn is_factor(frame: &Frame, variable: &Variable) -> bool
    ensures { result ≡ is_factor frame.now variable.now }
{
    if variable.arith.is_some() {
        return false;
    }
    variable.as_factor || is_text(&column(frame, variable.name.as_str()))
}

fn are_factors(frame: &Frame, variables: &[Variable]) -> bool
    ensures { result ≡ list_all (is_factor frame.now) variables.now }
{
    variables.iter().all(|v| is_factor(frame, v))
}

fn is_whole_factor(frame: &Frame, term: &Term) -> bool
    ensures { result ≡ is_whole_factor frame.now term.now }
{
    let variables = term.variables.as_slice();
    if variables.len() != 1 {
        return false;
    }
    are_factors(frame, variables)
}

fn has_whole_factor(frame: &Frame, terms: &[Term]) -> bool
    ensures { result ≡ list_any (is_whole_factor frame.now) terms.now }
{
    terms.iter().any(|term| is_whole_factor(frame, term))
}

fn is_same(left: &Variable, right: &Variable) -> bool
    ensures { result ≡ same_variable left.now right.now }
{
    if left.name.as_str() != right.name.as_str() {
        return false;
    }
    left.as_factor == right.as_factor && left.arith.is_some() == right.arith.is_some()
}

fn are_same(left: &[Variable], right: &[Variable]) -> bool
    ensures { result ≡ same_variables left.now right.now }
{
    if left.len() != right.len() {
        return false;
    }
    for (place, variable) in left.iter().enumerate() {
        if !is_same(variable, &right[place]) {
            return false;
        }
    }
    true
}

// Whether the second are the first without the one at a place.
fn are_without(whole: &[Variable], place: usize, rest: &[Variable]) -> bool
    requires { place < length whole.now }
    ensures { result ≡ same_variables (without place whole.now) rest.now }
{
    if whole.len() - 1 != rest.len() {
        return false;
    }
    if !are_same(&whole[..place], &rest[..place]) {
        return false;
    }
    are_same(&whole[place + 1..], &rest[place..])
}

#[tactic(auto, unfolding(crate::specs::CodedVariable::is_in_model))]
fn is_in_model(terms: &[Term], whole: &[Variable], place: usize) -> bool
    requires { place < length whole.now }
    ensures { result ≡ is_in_model terms.now (without place whole.now) }
{
    terms.iter().any(|term| are_without(whole, place, term.variables.as_slice()))
}

/// What the coding of a term depends on.
#[derive(Clone, Copy)]
pub(crate) struct Coder<'a> {
    pub(crate) frame: &'a Frame,
    pub(crate) model: &'a Formula,
    /// The coding by contrasts.
    pub(crate) contrasts: Coding,
    /// The records that are kept.
    pub(crate) records: &'a [u32],
}

impl<'a> Coder<'a> {
    // Whether the model has the columns that the levels of the factor at a place of the term of
    // this number add up to.
    fn is_spanned(&self, number: usize, variables: &[Variable], place: usize) -> bool
        requires inside { number < length self.now.model.now.terms }
        requires there { place < length variables.now }
        ensures { result ≡ is_spanned self.now.frame.now self.now.model.now number variables.now place }
    {
        let terms = self.model.terms.as_slice();
        if variables.len() != 1 {
            return is_in_model(terms, variables, place);
        }
        if self.model.intercept {
            return true;
        }
        has_whole_factor(self.frame, &terms[..number])
    }

    fn coding(&self, number: usize, variables: &[Variable], place: usize) -> Coding
        requires inside { number < length self.now.model.now.terms }
        requires there { place < length variables.now }
        ensures { result ≡ coding_of self.now.frame.now self.now.model.now self.now.contrasts number variables.now place }
    {
        if self.is_spanned(number, variables, place) {
            self.contrasts
        } else {
            Coding::Indicator
        }
    }

    // A variable, which stands at a place of the term of this number.
    #[tactic(auto, unfolding(crate::specs::CodedVariable::coded_variable))]
    fn variable(
        &self,
        alloc: Global,
        number: usize,
        variables: &[Variable],
        place: usize,
        variable: &'a Variable,
    ) -> Result<CodedVariable<'a>, AllocError>
        requires counted { length self.now.records.now < 2 ^ 32 }
        requires usable { IfSome variable.now.arith CanEvaluate }
        requires inside { number < length self.now.model.now.terms }
        requires there { place < length variables.now }
        ensures { IfOk result (λ v. coded_seen v ≡ coded_variable self.now.frame.now self.now.model.now
            self.now.contrasts self.now.records.now number variables.now place variable.entry.now) }
    {
        let name = print_name(alloc, variable.as_factor, variable.name.as_str())?;
        let coding = self.coding(number, variables, place);
        let values = values_by(alloc, self.frame, variable, self.records)?;
        Ok(CodedVariable {
            name,
            coding,
            values,
        })
    }

    // The term of this number.
    fn term(
        &self,
        alloc: Global,
        number: usize,
        term: &'a Term,
    ) -> Result<Vec<CodedVariable<'a>>, AllocError>
        requires counted { length self.now.records.now < 2 ^ 32 }
        requires usable { All (λ v. IfSome v.arith CanEvaluate) term.now.variables }
        requires inside { number < length self.now.model.now.terms }
        ensures coded { IfOk result (λ vs. map coded_seen vs.items ≡ coded_term self.now.frame.now
            self.now.model.now self.now.contrasts self.now.records.now number term.entry.now) }
        ensures counted { IfOk result (λ vs. length vs.items ≡ length term.entry.now.variables) }
    {
        let variables = term.variables.as_slice();
        let mut coded = Vec::with_capacity(alloc, variables.len())?;
        for (place, variable) in variables.iter().enumerate() {
            coded.push(self.variable(alloc, number, variables, place, variable)?)?;
        }
        Ok(coded)
    }

    /// The terms of the model, variable by variable.
    pub(crate) fn terms(&self, alloc: Global) -> Result<Vec<Vec<CodedVariable<'a>>>, AllocError>
        requires counted { length self.now.records.now < 2 ^ 32 }
        requires short { All (λ t. length t.variables < 2 ^ 32) self.now.model.now.terms }
        requires usable { All (λ t. All (λ v. IfSome v.arith CanEvaluate) t.variables) self.now.model.now.terms }
        ensures coded { IfOk result (λ ts. map (λ vs. map coded_seen vs.items) ts.items
            ≡ each (coded_term self.now.frame.now self.now.model.now self.now.contrasts self.now.records.now)
            0 self.now.model.now.terms) }
        ensures short { IfOk result (λ ts. All (λ vs. length vs.items < 2 ^ 32) ts.items) }
    {
        let terms = self.model.terms.as_slice();
        let mut coded = Vec::with_capacity(alloc, terms.len())?;
        for (number, term) in terms.iter().enumerate() {
            coded.push(self.term(alloc, number, term)?)?;
        }
        Ok(coded)
    }
}
