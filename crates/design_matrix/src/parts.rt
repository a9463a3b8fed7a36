//! The columns of a design, each as the parts that it is the product of.

ghost use Rattle.std.specs.Prelude.{◌≡◌, ◌≤◌, ◌<◌, ◌^◌, ◌++◌, [], false, All, IfOk, OnOk, length, map, min, pos, slice_index_or, unsigned_abs};
ghost use Rattle.rational_laws.specs.Rational.{whole};
ghost use Rattle.frac_core.specs.Limits.{most_rows, most_columns};
ghost use Rattle.frac_core.specs.Values.{exact};
ghost use Rattle.design_matrix.specs.Parts.{chosen, column_name, columns_in, count, term_columns};
ghost use Rattle.design_matrix.specs.Views.{coded_seen, columns_seen, part_seen, terms_seen};
ghost use Rattle.design_matrix.specs.Widths.{IsUsable};

use crate::cells::number;
use crate::coded::{CodedVariable, Values};
use crate::part::Part;
use frac_core::{Exact, Frac128, Text};
use std::alloc::{AllocError, Global};

// The fraction of a small whole number.
fn whole_number(number: i64) -> Frac128
    requires { unsigned_abs number ≤ most_rows }
    ensures { exact result ≡ whole number }
{
    match Frac128::from_parts(i128::from(number), 1) {
        Some(fraction) => fraction,
        None => unreachable!(),
    }
}

impl Part<'_, '_> {
    /// The entry at a place among the kept records.
    ///
    /// An arithmetic has none behind a record in which one of its operations overflows.
    pub(crate) fn entry(&self, place: usize) -> Result<Frac128, AllocError>
        ensures { IfOk result (λ x. exact x ≡ slice_index_or (part_seen self.now).entries place (whole (pos 0))) }
    {
        match &self.variable.values {
            Values::Numbers(cells, records) => match records.get(place) {
                Some(index) => Ok(number(cells, *index)),
                None => Ok(Frac128::zero()),
            },
            Values::Levels(levels) => match levels.places.get(place) {
                Some(level) => {
                    let count = levels.texts.len() as u32;
                    Ok(whole_number(contrasts::entry(
                        self.variable.coding,
                        count,
                        *level,
                        self.column,
                    )))
                }
                None => Ok(Frac128::zero()),
            },
            Values::Computed(values) => values.at(place),
        }
    }

    // What it is called.
    fn label(&self, alloc: Global) -> Result<Text, AllocError>
        ensures { IfOk result (λ t. t ≡ (part_seen self.now).label) }
    {
        let name = self.variable.name.as_str();
        let labelled = match &self.variable.values {
            Values::Numbers(..) => Text::new(alloc, name),
            Values::Computed(_) => Text::new(alloc, name),
            Values::Levels(levels) => {
                contrasts::label(
                    alloc,
                    self.variable.coding,
                    &levels.texts,
                    name,
                    self.column,
                )
            }
        };
        match labelled {
            Ok(text) => Ok(text),
            Err(_) => Err(AllocError),
        }
    }
}

// A number of columns, or 129 where it is more.
fn capped(columns: u64) -> u64
    ensures { result ≡ min columns 129 }
{
    if columns < 129 { columns } else { 129 }
}

// The columns of a term, or 129 where it has more.
fn count_of(term: &[CodedVariable<'_>]) -> u64
    ensures { result ≡ min (count (map coded_seen term.now)) 129 }
{
    let mut columns: u64 = 1;
    for variable in term {
        columns = capped(columns * u64::from(variable.width()));
    }
    columns
}

// The columns of terms, or 129 where they have more.
fn count_all(terms: &[Vec<CodedVariable<'_>>]) -> u64
    ensures { result ≡ min (length (columns_in false (terms_seen terms.now))) 129 }
{
    let mut columns: u64 = 0;
    for term in terms {
        columns = capped(columns + count_of(term));
    }
    columns
}

/// The columns of a design, or 129 where it has more.
pub(crate) fn column_count(intercept: bool, terms: &[Vec<CodedVariable<'_>>]) -> u64
    ensures { result ≡ min (length (columns_in intercept (terms_seen terms.now))) 129 }
{
    let columns = count_all(terms);
    if intercept {
        capped(columns + 1)
    } else {
        columns
    }
}

// One column of each variable of a term, by the digits of a number.
fn chosen_parts<'b, 'a>(
    alloc: Global,
    term: &'b [CodedVariable<'a>],
    number: u32,
) -> Result<Vec<Part<'b, 'a>>, AllocError>
    requires { All IsUsable term.now }
    ensures parts { IfOk result (λ parts. map part_seen parts.items ≡ chosen (map coded_seen term.now) number) }
    ensures counted { IfOk result (λ parts. length parts.items ≡ length term.now) }
{
    let mut parts = Vec::with_capacity(alloc, term.len())?;
    let mut rest = number;
    for variable in term {
        let width = variable.width();
        parts.push(Part {
            variable,
            column: rest % width,
        })?;
        rest /= width;
    }
    Ok(parts)
}

// Adds the columns of a term.
fn push_columns<'b, 'a>(
    alloc: Global,
    columns: &mut Vec<Vec<Part<'b, 'a>>>,
    term: &'b [CodedVariable<'a>],
) -> Result<(), AllocError>
    requires usable { All IsUsable term.now }
    requires few { count (map coded_seen term.now) ≤ most_columns }
    requires counted { length term.now < 2 ^ 32 }
    requires short { All (λ parts. length parts.items < 2 ^ 32) columns.old.items }
    ensures columns { OnOk result (columns_seen columns.new.items
        ≡ columns_seen columns.old.items ++ term_columns (map coded_seen term.now)) }
    ensures short { OnOk result (All (λ parts. length parts.items < 2 ^ 32) columns.new.items) }
{
    let count = count_of(term) as u32;
    for number in 0..count {
        columns.push(chosen_parts(alloc, term, number)?)?;
    }
    Ok(())
}

// Puts the column of the intercept first, where there is one.
fn push_intercept<'b, 'a>(
    alloc: Global,
    columns: &mut Vec<Vec<Part<'b, 'a>>>,
    intercept: bool,
) -> Result<(), AllocError>
    requires { columns.old.items ≡ [] }
    ensures columns { OnOk result (columns_seen columns.new.items ≡ columns_in intercept []) }
    ensures short { OnOk result (All (λ parts. length parts.items < 2 ^ 32) columns.new.items) }
{
    if intercept {
        columns.push(Vec::new(alloc))?;
    }
    Ok(())
}

/// The columns of a design.
pub(crate) fn design_columns<'b, 'a>(
    alloc: Global,
    intercept: bool,
    terms: &'b [Vec<CodedVariable<'a>>],
) -> Result<Vec<Vec<Part<'b, 'a>>>, AllocError>
    requires usable { All (λ vs. All IsUsable vs.items) terms.now }
    requires few { All (λ vs. count (map coded_seen vs.items) ≤ most_columns) terms.now }
    requires short { All (λ vs. length vs.items < 2 ^ 32) terms.now }
    ensures columns { IfOk result (λ columns. columns_seen columns.items ≡ columns_in intercept (terms_seen terms.now)) }
    ensures short { IfOk result (λ columns. All (λ parts. length parts.items < 2 ^ 32) columns.items) }
{
    let mut columns = Vec::new(alloc);
    push_intercept(alloc, &mut columns, intercept)?;
    for term in terms {
        push_columns(alloc, &mut columns, term)?;
    }
    Ok(columns)
}

/// What a column is called.
pub(crate) fn name_of(alloc: Global, column: &[Part<'_, '_>]) -> Result<Text, AllocError>
    ensures { IfOk result (λ t. t ≡ column_name (map part_seen column.now)) }
{
    let Some((first, rest)) = column.split_first() else {
        return Ok(Text::from(String::from_str(alloc, "(Intercept)")?));
    };
    let mut name = String::from_str(alloc, first.label(alloc)?.as_str())?;
    for part in rest {
        name.push(':')?;
        name.push_str(part.label(alloc)?.as_str())?;
    }
    Ok(Text::from(name))
}
