//! The arithmetics of a formula: their texts, their names and their code.

ghost use Rattle.std.specs.Prelude.{◌≡◌, ◌++◌, ◌<◌, ◌^◌, [], bytes_eq, length, map, position, string_bytes, All, IfOk, OnOk};
ghost use Rattle.std.specs.List.{list_any};
ghost use Rattle.formula_arith.specs.Arithmetics.{with_name};
ghost use Rattle.formula_arith.specs.Codes.{name_index};
ghost use Rattle.formula_parser.specs.Arithmetics.{arith_place, ariths_from, column_name, exponent_text, mark_text, names_from, numeral_text, op_of, opens_operand, part_said, sign_text, token_text, tokens_text, value_text, with_arith};
ghost use Rattle.formula_parser.specs.Spoken.{IsShort, LoadsShort};

use crate::scope::{column_at, column_of};
use formula_grammar::{ArithPart, ArithStep, Kind, Numeral, Sign, Span, Step, Token};
use frac_core::{Arith, ArithOp, List, OutOfMemory, Text, number_text};
use std::alloc::Global;

/// The text of a formula, and the names of a table's columns.
#[derive(Clone, Copy)]
pub(crate) struct Source<'a> {
    pub text: &'a [u8],
    pub names: &'a [Text],
}

/// Adds a piece to a text.
pub(crate) fn push(told: &mut String, piece: &str) -> Result<(), OutOfMemory>
    ensures { OnOk result (string_bytes told.new ≡ string_bytes told.old ++ piece.now) }
{
    match told.push_str(piece) {
        Ok(()) => Ok(()),
        Err(_) => Err(OutOfMemory),
    }
}

// A sign, which stands between blanks where it doesn't lead.
fn sign_text(sign: Sign, leads: bool) -> &'static str
    ensures { result.now ≡ sign_text sign leads }
{
    match (sign, leads) {
        (Sign::Plus, true) => "+",
        (Sign::Plus, false) => " + ",
        (Sign::Minus, true) => "-",
        (Sign::Minus, false) => " - ",
    }
}

// The text of a token that is no name and no number.
fn mark_text(kind: Kind, leads: bool) -> &'static str
    ensures { result.now ≡ mark_text kind leads }
{
    match kind {
        Kind::Signed(sign) => sign_text(sign, leads),
        Kind::Star => " * ",
        Kind::Caret => "^",
        Kind::Open => "(",
        Kind::Close => ")",
        _ => "",
    }
}

// Whether a sign behind this token leads.
fn opens(kind: Kind) -> bool
    ensures { result ≡ opens_operand kind }
{
    match kind {
        Kind::Open => true,
        _ => false,
    }
}

// Adds a number by its value.
fn push_value(alloc: Global, told: &mut String, number: Numeral) -> Result<(), OutOfMemory>
    ensures { OnOk result (string_bytes told.new ≡ string_bytes told.old ++ value_text number) }
{
    push(told, number_text(alloc, number.value())?.as_str())
}

// Adds an exponent: its digits, which are its number text.
fn push_exponent(alloc: Global, told: &mut String, number: Numeral) -> Result<(), OutOfMemory>
    ensures { OnOk result (string_bytes told.new ≡ string_bytes told.old ++ exponent_text number) }
{
    match number {
        Numeral::Digits(whole) => match whole.power().to_string(alloc) {
            Ok(digits) => push(told, digits.as_str()),
            Err(_) => Err(OutOfMemory),
        },
        Numeral::Written(_) => push_value(alloc, told, number),
    }
}

// Adds a number behind a token of this kind.
fn push_number(
    alloc: Global,
    told: &mut String,
    number: Numeral,
    last: Kind,
) -> Result<(), OutOfMemory>
    ensures { OnOk result (string_bytes told.new ≡ string_bytes told.old ++ numeral_text last number) }
{
    match last {
        Kind::Caret => push_exponent(alloc, told, number),
        _ => push_value(alloc, told, number),
    }
}

// Adds a token of an arithmetic behind one of this kind.
fn push_token(
    alloc: Global,
    told: &mut String,
    source: &Source,
    token: Token,
    last: Kind,
) -> Result<(), OutOfMemory>
    ensures { OnOk result (string_bytes told.new
        ≡ string_bytes told.old ++ token_text source.now.text.now source.now.names.now last token) }
{
    match token.kind {
        Kind::Name(span) => {
            let mark = if span.start == token.at { "" } else { "`" };
            push(told, mark)?;
            push(told, column_name(source, span))?;
            push(told, mark)
        }
        Kind::Number(number) => push_number(alloc, told, number, last),
        kind => push(told, mark_text(kind, opens(last))),
    }
}

// The text of an arithmetic: its tokens, with blanks around an operator between two operands.
fn text_of(alloc: Global, source: &Source, tokens: &[Token]) -> Result<Text, OutOfMemory>
    ensures { IfOk result (λ t. t ≡ tokens_text source.now.text.now source.now.names.now Kind.Open tokens.now) }
{
    let mut told = String::new(alloc);
    let mut last = Kind::Open;
    for token in tokens {
        push_token(alloc, &mut told, source, *token, last)?;
        last = token.kind;
    }
    Ok(Text::from(told))
}

// The place of a name among distinct ones, or their number where it isn't there.
fn number_of(names: &[Text], name: &str) -> usize
    ensures { result ≡ name_index names.now name.now }
{
    match column_of(names, name.as_bytes()) {
        Some(place) => place,
        None => names.len(),
    }
}

// Whether a name is among these.
fn has_name(names: &[Text], name: &str) -> bool
    ensures { result ≡ list_any (λ y. bytes_eq y name.now) names.now }
{
    names.iter().any(|other| other.as_str() == name)
}

// The names with one more, where it isn't there yet.
fn add_name(alloc: Global, mut found: List<Text>, name: &str) -> Result<List<Text>, OutOfMemory>
    ensures { IfOk result (λ names. names ≡ with_name found name.now) }
{
    if has_name(found.as_slice(), name) {
        return Ok(found);
    }
    found.add(Text::new(alloc, name)?)?;
    Ok(found)
}

// A column's name.
fn column_name<'a>(source: &Source<'a>, span: Span) -> &'a str
    ensures { result.now ≡ column_name source.now.text.now source.now.names.now span }
{
    match source.names.get(column_at(source.text, source.names, span)) {
        Some(name) => name.as_str(),
        None => "",
    }
}

// The distinct names of an arithmetic, in the order in which they first stand.
fn names_of(alloc: Global, source: &Source, steps: &[ArithStep]) -> Result<List<Text>, OutOfMemory>
    ensures { IfOk result (λ names. names ≡ names_from source.now.text.now source.now.names.now [] steps.now) }
{
    let mut found = List::new(alloc);
    for step in steps {
        if let ArithStep::Load { name } = step {
            found = add_name(alloc, found, column_name(source, *name))?;
        }
    }
    Ok(found)
}

// A step whose name is a number.
fn op_of(source: &Source, names: &[Text], step: ArithStep) -> ArithOp
    requires { length names.now < 2 ^ 32 }
    ensures { result ≡ op_of source.now.text.now source.now.names.now names.now step }
{
    match step {
        ArithStep::Load { name } => ArithOp::Load {
            name: number_of(names, column_name(source, name)) as u32,
        },
        ArithStep::Constant { number } => ArithOp::Constant {
            value: number.value(),
        },
        ArithStep::Negate => ArithOp::Negate,
        ArithStep::Add => ArithOp::Add,
        ArithStep::Sub => ArithOp::Sub,
        ArithStep::Mul => ArithOp::Mul,
        ArithStep::Power { exponent } => ArithOp::Power { exponent },
    }
}

fn code_of(
    alloc: Global,
    source: &Source,
    names: &[Text],
    steps: &[ArithStep],
) -> Result<List<ArithOp>, OutOfMemory>
    requires { length names.now < 2 ^ 32 }
    ensures { IfOk result (λ ops. ops ≡ map (op_of source.now.text.now source.now.names.now names.now) steps.now) }
{
    let mut code = List::new(alloc);
    for step in steps {
        code.add(op_of(source, names, *step))?;
    }
    Ok(code)
}

/// An arithmetic by the names of its columns.
pub(crate) fn arith_of(
    alloc: Global,
    source: &Source,
    part: &ArithPart,
) -> Result<Arith, OutOfMemory>
    requires { IsShort part.now }
    ensures { IfOk result (λ a. a ≡ part_said source.now.text.now source.now.names.now part.now) }
{
    let steps = part.steps.as_slice();
    let names = names_of(alloc, source, steps)?;
    let code = code_of(alloc, source, names.as_slice(), steps)?;
    Ok(Arith {
        text: text_of(alloc, source, part.tokens.as_slice())?,
        names,
        code,
    })
}

// The first arithmetic of a text.
fn with_text(ariths: &[Arith], text: &str) -> Option<usize>
    ensures { result ≡ position (λ a. bytes_eq a.text text.now) ariths.now }
{
    ariths.iter().position(|other| other.text.as_str() == text)
}

/// The place of an arithmetic among those of a formula, by its text, or their number where none has
/// the text.
pub(crate) fn place_of(
    alloc: Global,
    source: &Source,
    ariths: &[Arith],
    part: &ArithPart,
) -> Result<usize, OutOfMemory>
    ensures place { IfOk result (λ n. n ≡ arith_place source.now.text.now source.now.names.now ariths.now part.now) }
    ensures few { IfOk result (λ n. n < 2 ^ 63) }
{
    let text = text_of(alloc, source, part.tokens.as_slice())?;
    match with_text(ariths, text.as_str()) {
        Some(place) => Ok(place),
        None => Ok(ariths.len()),
    }
}

// The arithmetics with one more, where none has its text yet.
fn add_arith(
    alloc: Global,
    source: &Source,
    mut found: List<Arith>,
    part: &ArithPart,
) -> Result<List<Arith>, OutOfMemory>
    requires { IsShort part.now }
    ensures { IfOk result (λ all. all ≡ with_arith source.now.text.now source.now.names.now found part.now) }
{
    if place_of(alloc, source, found.as_slice(), part)? < found.as_slice().len() {
        return Ok(found);
    }
    found.add(arith_of(alloc, source, part)?)?;
    Ok(found)
}

/// The arithmetics that steps load, each text once, in the order in which they first stand.
pub(crate) fn ariths_of(
    alloc: Global,
    source: &Source,
    steps: &[Step],
) -> Result<List<Arith>, OutOfMemory>
    requires { All LoadsShort steps.now }
    ensures { IfOk result (λ all. all ≡ ariths_from source.now.text.now source.now.names.now [] steps.now) }
{
    let mut found = List::new(alloc);
    for step in steps {
        if let Step::LoadArith { part } = step {
            found = add_arith(alloc, source, found, part)?;
        }
    }
    Ok(found)
}

/// The offsets by the names of their columns.
pub(crate) fn spoken_offsets(
    alloc: Global,
    source: &Source,
    parts: &[ArithPart],
) -> Result<List<Arith>, OutOfMemory>
    requires { All IsShort parts.now }
    ensures { IfOk result (λ all. all ≡ map (part_said source.now.text.now source.now.names.now) parts.now) }
{
    let mut all = List::new(alloc);
    for part in parts {
        all.add(arith_of(alloc, source, part)?)?;
    }
    Ok(all)
}

// The same texts in memory of their own.
fn texts_copied(alloc: Global, texts: &[Text]) -> Result<List<Text>, OutOfMemory>
    ensures { IfOk result (λ copies. copies ≡ texts.now) }
{
    let mut copies = List::new(alloc);
    for text in texts {
        copies.add(Text::new(alloc, text.as_str())?)?;
    }
    Ok(copies)
}

/// The same arithmetic in memory of its own.
pub(crate) fn copied(alloc: Global, arith: &Arith) -> Result<Arith, OutOfMemory>
    ensures { IfOk result (λ a. a ≡ arith.now) }
{
    let text = Text::new(alloc, arith.text.as_str())?;
    let names = texts_copied(alloc, arith.names.as_slice())?;
    let code = List::copy(alloc, arith.code.as_slice())?;
    Ok(Arith { text, names, code })
}
