//! Tokens, and where they stand.
ghost use Rattle.std.specs.Prelude.{◌≡◌, pos};
ghost use Rattle.rational_laws.specs.Rational.{whole};
ghost use Rattle.frac_core.specs.Values.{exact};
ghost use Rattle.formula_grammar.specs.Numerals.{fraction_of, fraction_or_zero, is_wide, one_fraction, power_of, value_of, value_or_zero, zero_fraction};

use crate::magnitude::Magnitude;
use frac_core::{Exact, Frac128};

/// Where a piece of a text stands: its first byte, and how many bytes it has.
#[derive(Clone, Copy, Debug, PartialEq, Eq)]
pub struct Span {
    pub start: u32,
    pub len: u32,
}

/// Plus or minus.
#[derive(Clone, Copy, Debug, PartialEq, Eq)]
pub enum Sign {
    Plus,
    Minus,
}

/// A number of digits alone.
#[derive(Clone, Copy, Debug, PartialEq, Eq)]
pub enum Whole {
    /// `0`, in one digit.
    Zero,
    /// `1`, in one digit.
    Unity,
    /// Other digits, and their value where `Frac128` holds it.
    Longer(Option<Magnitude>),
}

/// A number, by what it is written with.
#[derive(Clone, Copy, Debug, PartialEq, Eq)]
pub enum Numeral {
    /// Digits alone.
    Digits(Whole),
    /// A point, an exponent or a denominator, and the number's value where `Frac128` holds it.
    Written(Option<Magnitude>),
}

/// What a token is.
#[derive(Clone, Copy, Debug, PartialEq, Eq)]
pub enum Kind {
    /// A name, and where its own text stands, without backticks.
    Name(Span),
    /// `factor` before an open parenthesis.
    FactorWord,
    /// `qss` before an open parenthesis.
    QssWord,
    /// `I` before an open parenthesis.
    ArithWord,
    /// `offset` before an open parenthesis.
    OffsetWord,
    Number(Numeral),
    Signed(Sign),
    Tilde,
    Star,
    Colon,
    Caret,
    Open,
    Close,
    Comma,
    /// A `.` that begins neither a name nor a number.
    Point,
    /// The end of the text.
    End,
    /// A byte that begins no token.
    Stray,
}

/// A token, and the byte at which it begins, counted from 0.
#[derive(Clone, Copy, Debug, PartialEq, Eq)]
pub struct Token {
    pub kind: Kind,
    pub at: u32,
}

impl Whole {
    /// The value, or 9 where it is more than 8.
    pub fn power(self) -> u32
        ensures { result ≡ power_of self }
    {
        match self {
            Whole::Zero => 0,
            Whole::Unity => 1,
            Whole::Longer(None) => 9,
            Whole::Longer(Some(value)) => value.capped(),
        }
    }
}

fn zero() -> Frac128
    ensures fraction { result ≡ zero_fraction }
    ensures exact { exact result ≡ whole (pos 0) }
{
    Frac128::zero()
}

fn one() -> Frac128
    ensures fraction { result ≡ one_fraction }
    ensures exact { exact result ≡ whole (pos 1) }
{
    Frac128::one()
}

// The value, or 0 where there is none.
fn value_or_zero(value: Option<Magnitude>) -> Frac128
    ensures fraction { result ≡ fraction_or_zero value }
    ensures exact { exact result ≡ value_or_zero value }
{
    match value {
        None => zero(),
        Some(value) => value.fraction(),
    }
}

impl Numeral {
    /// `Frac128` doesn't hold the number.
    pub fn is_wide(self) -> bool
        ensures { result ≡ is_wide self }
    {
        match self {
            Numeral::Digits(Whole::Longer(value)) => value.is_none(),
            Numeral::Digits(_) => false,
            Numeral::Written(value) => value.is_none(),
        }
    }

    /// The number's value, or 0 where it is wide.
    pub fn value(self) -> Frac128
        ensures fraction { result ≡ fraction_of self }
        ensures exact { exact result ≡ value_of self }
    {
        match self {
            Numeral::Digits(Whole::Zero) => zero(),
            Numeral::Digits(Whole::Unity) => one(),
            Numeral::Digits(Whole::Longer(value)) => value_or_zero(value),
            Numeral::Written(value) => value_or_zero(value),
        }
    }
}
