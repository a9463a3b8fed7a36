//! Number text, from bytes to a fraction.
ghost use Rattle.std.specs.Prelude.{◌≡◌, ◌<◌, ◌≤◌, ◌+◌, ◌^◌, ◌++◌, true, Ok, Err, Some, IfSome, MatchOption, MatchResult, IfOk, length, ℕ, pos, neg_ℤ, if◌then◌else◌};
ghost use Rattle.std.specs.Str.{all_ascii_digits};
ghost use Rattle.std.specs.Str.Parse.{digits_value, starts_with_minus, without_leading_sign};
ghost use Rattle.rational_laws.specs.Fraction.{rational};
ghost use Rattle.frac_core.specs.NumberText.{number_of, written_body, written_fraction, decimal_form, with_exponent, scaled};
ghost use Rattle.frac_core.specs.NumberReading.{HasRead, IsMantissa, IsWithin, fraction_of, within, scan_decimal};

use crate::Exact;
use crate::bounded::signed;
use crate::digits::{Digits, times_power};

/// Why a text gives no number.
#[derive(Clone, Copy, Debug, PartialEq, Eq)]
pub enum NumberFault {
    /// It is no number text.
    NotANumber,
    /// It is a number text, one of whose two written numbers exceeds the range.
    TooWide,
}

/// The two numbers that a text without its sign writes.
#[derive(Clone, Copy)]
struct Written {
    numerator: u128,
    denominator: u128,
}

/// The digits of a decimal, those before its point and those behind it.
#[derive(Clone, Copy)]
struct Mantissa<'a> {
    digits: Digits,
    whole: &'a [u8],
    behind: &'a [u8],
}

// An exponent of more than this makes a number other than 0 too wide, whatever its digits.
const MOST_EXPONENT: u128 = 1 << 66;

/// Reads a number text: an optional sign, and then a decimal such as `1.5e-3`, `.5` or `5.`, or a
/// fraction of digits such as `2/3`.
///
/// The value is exact, in lowest terms. A decimal is written `m * 10^k` with `m` not divisible by
/// 10, that is as `m * 10^k` over 1 or as `m` over `10^-k`; it is `TooWide` exactly where one of
/// these two whole numbers exceeds `RANGE`, and 0 is never too wide. A fraction is `TooWide`
/// exactly where one of the two numbers that are written exceeds `RANGE`. A fraction over 0, and
/// every other text, is `NotANumber`. The text is read once from left to right, and takes no
/// memory.
pub fn read_number<F: Exact>(text: &str) -> Result<F, NumberFault>
    ensures { MatchResult result
        (λ r. number_of F.range text.now ≡ Ok (rational (F.value r)))
        (λ e. number_of F.range text.now ≡ Err e) }
{
    let (is_negative, body) = split_sign(text.as_bytes());
    let parts = read_body(body, F::RANGE as u128)?;
    Ok(value_of(is_negative, parts))
}

fn value_of<F: Exact>(is_negative: bool, parts: Written) -> F
    requires within { IsWithin F.range parts }
    requires fits { F.range < 2 ^ 127 }
    ensures { rational (F.value result) ≡ rational (fraction_of is_negative parts) }
{
    let numerator = signed(is_negative, parts.numerator);
    F::from_parts(numerator, parts.denominator as i128).unwrap()
}

// Whether a text begins with a minus, and the text behind its sign.
fn split_sign(text: &[u8]) -> (bool, &[u8])
    ensures sign { result.0 ≡ starts_with_minus text.now }
    ensures body { result.1.now ≡ without_leading_sign text.now }
{
    match text {
        [b'-', body @ ..] => (true, body),
        [b'+', body @ ..] => (false, body),
        _ => (false, text),
    }
}

fn read_body(text: &[u8], limit: u128) -> Result<Written, NumberFault>
    requires some { 1 ≤ limit }
    requires most { limit < 2 ^ 127 }
    ensures parts { result ≡ within limit (written_body text.now) }
    ensures within { IfOk result (IsWithin limit) }
{
    let mut digits = Digits::new(limit);
    let (whole, rest) = digits.read(text);
    match rest {
        [b'/', below @ ..] => read_fraction(digits, whole, below),
        [b'.', more @ ..] => {
            let (behind, rest) = digits.read(more);
            read_decimal(
                Mantissa {
                    digits,
                    whole,
                    behind,
                },
                rest,
            )
        }
        _ => read_decimal(
            Mantissa {
                digits,
                whole,
                behind: &[],
            },
            rest,
        ),
    }
}

// A fraction, the digits of whose numerator are taken in.
fn read_fraction(numerator: Digits, above: &[u8], below: &[u8]) -> Result<Written, NumberFault>
    requires read { HasRead above.now numerator }
    requires digits { all_ascii_digits above.now ≡ true }
    ensures { result ≡ within numerator.limit (written_fraction above.now below.now) }
{
    let Some(denominator) = Digits::of(below, numerator.limit) else {
        return Err(NumberFault::NotANumber);
    };
    if above.is_empty() {
        return Err(NumberFault::NotANumber);
    }
    match (numerator.value(), denominator.value()) {
        (_, Some(0)) => Err(NumberFault::NotANumber),
        (Some(numerator), Some(denominator)) => Ok(Written {
            numerator,
            denominator,
        }),
        _ => Err(NumberFault::TooWide),
    }
}

// A decimal, by what follows its digits: nothing, or an exponent.
fn read_decimal(mantissa: Mantissa, rest: &[u8]) -> Result<Written, NumberFault>
    requires mantissa { IsMantissa mantissa }
    requires some { 1 ≤ mantissa.digits.limit }
    requires most { mantissa.digits.limit < 2 ^ 127 }
    ensures { let m = mantissa.entry in
        result ≡ within m.digits.limit (scan_decimal m.whole.now m.behind.now rest.now) }
{
    match rest {
        [] => read_exponent(mantissa, b"0"),
        [b'e' | b'E', exponent @ ..] => read_exponent(mantissa, exponent),
        _ => Err(NumberFault::NotANumber),
    }
}

fn read_exponent(mantissa: Mantissa, text: &[u8]) -> Result<Written, NumberFault>
    requires mantissa { IsMantissa mantissa }
    requires some { 1 ≤ mantissa.digits.limit }
    requires most { mantissa.digits.limit < 2 ^ 127 }
    ensures { let m = mantissa.entry in
        result ≡ within m.digits.limit (decimal_form m.whole.now m.behind.now text.now) }
{
    let (is_negative, unsigned) = split_sign(text);
    let Some(exponent) = Digits::of(unsigned, MOST_EXPONENT) else {
        return Err(NumberFault::NotANumber);
    };
    if mantissa.whole.is_empty() && mantissa.behind.is_empty() {
        return Err(NumberFault::NotANumber);
    }
    with_exponent(mantissa, is_negative, exponent.value())
}

// A decimal's digits with an exponent, which is None where it exceeds that of every value.
fn with_exponent(
    mantissa: Mantissa,
    is_negative: bool,
    exponent: Option<u128>,
) -> Result<Written, NumberFault>
    requires mantissa { IsMantissa mantissa }
    requires some { 1 ≤ mantissa.digits.limit }
    requires most { mantissa.digits.limit < 2 ^ 127 }
    requires exponent { IfSome exponent (λ e. e ≤ MOST_EXPONENT) }
    ensures { let m = mantissa.entry in
        (e : ℕ) → MatchOption exponent (MOST_EXPONENT < e) (λ v. v ≡ e)
        → result ≡ within m.digits.limit (Some (with_exponent m.whole.now m.behind.now is_negative e)) }
{
    let Some(significand) = mantissa.digits.significand else {
        return Err(NumberFault::TooWide);
    };
    if significand == 0 {
        return Ok(Written {
            numerator: 0,
            denominator: 1,
        });
    }
    let Some(exponent) = exponent else {
        return Err(NumberFault::TooWide);
    };
    let zeros = mantissa.digits.zeros;
    let places = mantissa.behind.len() as u128;
    let limit = mantissa.digits.limit;
    if is_negative {
        scaled(significand, zeros, places + exponent, limit)
    } else {
        scaled(significand, zeros + exponent, places, limit)
    }
}

// `number * 10^(up - down)` as two whole numbers.
fn scaled(number: u128, up: u128, down: u128, limit: u128) -> Result<Written, NumberFault>
    requires number { number ≤ limit }
    requires some { 1 ≤ limit }
    ensures { result ≡ within limit (Some (scaled number up down)) }
{
    match (
        times_power(number, up.saturating_sub(down), limit),
        times_power(1, down.saturating_sub(up), limit),
    ) {
        (Some(numerator), Some(denominator)) => Ok(Written {
            numerator,
            denominator,
        }),
        _ => Err(NumberFault::TooWide),
    }
}
