//! Number texts within a text: how far one goes, and its value.
ghost use Rattle.std.specs.Prelude.{◌≡◌, ◌≤◌, ◌<◌, false, length, slice_index, ◌-◌};
ghost use Rattle.std.specs.Char.{is_ascii_digit};
ghost use Rattle.std.specs.List.{list_all};
ghost use Rattle.frac_core.specs.NumberText.{is_exponent_mark};
ghost use Rattle.formula_grammar.specs.Numbers.{digit_then, is_signed, is_whole, next_part, number_len, numeral_of, whole_of};
ghost use Rattle.formula_grammar.specs.Magnitudes.{magnitude_of};

use crate::magnitude::Magnitude;
use crate::token::{Numeral, Whole};
use frac_core::{Frac128, NumberFault, read_number};

/// What was read of a number text, byte by byte.
#[derive(Clone, Copy)]
pub(crate) enum NumberPart {
    Empty,
    Integer,
    /// A point that no digit stands before.
    LonePoint,
    /// Digits with a point before, among or behind them.
    Decimals,
    ExponentMark,
    ExponentSign,
    Exponent,
    /// A denominator that is empty, or 0 so far.
    Slash,
    Denominator,
}

fn is_exponent_mark(byte: u8) -> bool
    ensures { result ≡ is_exponent_mark byte }
{
    byte == b'e' || byte == b'E'
}

fn digit_then(byte: u8, next: NumberPart) -> Option<NumberPart>
    ensures { result ≡ digit_then byte next }
{
    if byte.is_ascii_digit() {
        Some(next)
    } else {
        None
    }
}

fn behind_integer(byte: u8) -> Option<NumberPart>
    ensures { result ≡ next_part NumberPart.Integer byte }
{
    match byte {
        b'/' => Some(NumberPart::Slash),
        b'.' => Some(NumberPart::Decimals),
        _ => {
            if is_exponent_mark(byte) {
                Some(NumberPart::ExponentMark)
            } else {
                digit_then(byte, NumberPart::Integer)
            }
        }
    }
}

impl NumberPart {
    /// What is read with one more byte, where a number text can have it there.
    fn next(self, byte: u8) -> Option<NumberPart>
        ensures { result ≡ next_part self byte }
    {
        match self {
            NumberPart::Empty => {
                if byte == b'.' {
                    Some(NumberPart::LonePoint)
                } else {
                    digit_then(byte, NumberPart::Integer)
                }
            }
            NumberPart::Integer => behind_integer(byte),
            NumberPart::LonePoint => digit_then(byte, NumberPart::Decimals),
            NumberPart::Decimals => {
                if is_exponent_mark(byte) {
                    Some(NumberPart::ExponentMark)
                } else {
                    digit_then(byte, NumberPart::Decimals)
                }
            }
            NumberPart::ExponentMark => {
                if byte == b'-' || byte == b'+' {
                    Some(NumberPart::ExponentSign)
                } else {
                    digit_then(byte, NumberPart::Exponent)
                }
            }
            NumberPart::ExponentSign => digit_then(byte, NumberPart::Exponent),
            NumberPart::Exponent => digit_then(byte, NumberPart::Exponent),
            NumberPart::Slash => {
                if byte == b'0' {
                    Some(NumberPart::Slash)
                } else {
                    digit_then(byte, NumberPart::Denominator)
                }
            }
            NumberPart::Denominator => digit_then(byte, NumberPart::Denominator),
        }
    }

    /// A number text may end here.
    fn is_whole(self) -> bool
        ensures { result ≡ is_whole self }
    {
        match self {
            NumberPart::Integer => true,
            NumberPart::Decimals => true,
            NumberPart::Exponent => true,
            NumberPart::Denominator => true,
            _ => false,
        }
    }
}

/// How many bytes the longest number text at the front has, where no sign stands there.
pub(crate) fn number_len(text: &[u8]) -> usize
    requires { is_signed text.now ≡ false }
    ensures len { result ≡ number_len text.now }
    ensures within { result ≤ length text.now }
    ensures ascii { 0 < result → slice_index text.now (result - 1) < 128 }
{
    let mut part = NumberPart::Empty;
    let mut longest = 0;
    for (index, byte) in text.iter().enumerate() {
        match part.next(*byte) {
            None => return longest,
            Some(next) => part = next,
        }
        if part.is_whole() {
            longest = index + 1;
        }
    }
    longest
}

// The value of a number text without a sign, where `Frac128` holds it.
fn read_magnitude(number: &str) -> Option<Magnitude>
    requires { is_signed number.now ≡ false }
    ensures { result ≡ magnitude_of number.now }
{
    let value: Result<Frac128, NumberFault> = read_number(number);
    match value {
        Ok(fraction) => Some(Magnitude { fraction }),
        Err(_) => None,
    }
}

#[tactic(auto, unfolding(crate::specs::Numbers::whole_of))]
fn read_whole(digits: &str) -> Whole
    requires { is_signed digits.now ≡ false }
    ensures { result ≡ whole_of digits.now }
{
    match digits {
        "0" => Whole::Zero,
        "1" => Whole::Unity,
        _ => Whole::Longer(read_magnitude(digits)),
    }
}

fn are_digits(text: &[u8]) -> bool
    ensures { result ≡ list_all is_ascii_digit text.now }
{
    text.iter().all(|byte| byte.is_ascii_digit())
}

/// What a number text without a sign is as a token.
#[tactic(auto, unfolding(crate::specs::Numbers::numeral_of))]
pub(crate) fn read_numeral(number: &str) -> Numeral
    requires { is_signed number.now ≡ false }
    ensures { result ≡ numeral_of number.now }
{
    if are_digits(number.as_bytes()) {
        Numeral::Digits(read_whole(number))
    } else {
        Numeral::Written(read_magnitude(number))
    }
}
