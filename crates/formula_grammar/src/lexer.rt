//! Tokens from the bytes of a text.
ghost use Rattle.std.specs.Prelude.{◌≡◌, ◌<◌, ◌≤◌, ◌+◌, ◌^◌, ◌∷◌, codes, length, drop, position, slice_index, IfOk, IfSome};
ghost use Rattle.std.specs.List.{prefix_len};
ghost use Rattle.formula_grammar.specs.Faults.{EndText};
ghost use Rattle.formula_grammar.specs.Numbers.{number_len, numeral_of};
ghost use Rattle.formula_grammar.specs.Tokens.{begins_name, begins_number, follows_point, goes_on, is_backtick, is_blank, is_letter, lexeme, mark_of, name_or_word, opens, quoted_to, starts_by, tokens};

use crate::number::{number_len, read_numeral};
use crate::token::{Kind, Sign, Span, Token};
use frac_core::{List, OutOfMemory};
use std::alloc::Global;

/// What a token is, and how many bytes it has.
#[derive(Clone, Copy)]
pub(crate) struct Lexeme {
    pub kind: Kind,
    pub len: u32,
}

fn is_blank(byte: u8) -> bool
    ensures { result ≡ is_blank byte }
{
    byte == b' ' || byte == b'\t' || byte == b'\n' || byte == b'\r'
}

fn is_letter(byte: u8) -> bool
    ensures { result ≡ is_letter byte }
{
    (b'A' <= byte && byte <= b'Z') || (b'a' <= byte && byte <= b'z')
}

fn goes_on(byte: u8) -> bool
    ensures { result ≡ goes_on byte }
{
    is_letter(byte) || byte.is_ascii_digit() || byte == b'.' || byte == b'_'
}

fn follows_point(byte: u8) -> bool
    ensures { result ≡ follows_point byte }
{
    is_letter(byte) || byte == b'.' || byte == b'_'
}

// Whether a name starts with this byte, before these.
fn begins_name(first: u8, rest: &[u8]) -> bool
    ensures { result ≡ begins_name first rest.now }
{
    match rest {
        [second, ..] => is_letter(first) || (first == b'.' && follows_point(*second)),
        [] => is_letter(first),
    }
}

fn begins_number(first: u8, rest: &[u8]) -> bool
    ensures { result ≡ begins_number first rest.now }
{
    match rest {
        [second, ..] => first.is_ascii_digit() || (first == b'.' && second.is_ascii_digit()),
        [] => first.is_ascii_digit(),
    }
}

fn name_len(text: &[u8]) -> usize
    ensures value { result ≡ prefix_len goes_on text.now }
    ensures within { result ≤ length text.now }
{
    text.iter().take_while(|byte| goes_on(**byte)).count()
}

fn opens(text: &[u8]) -> bool
    ensures { result ≡ opens text.now }
{
    for byte in text {
        if !is_blank(*byte) {
            return *byte == b'(';
        }
    }
    false
}

#[tactic(auto, unfolding(crate::specs::Tokens::name_or_word))]
fn name_or_word(at: u32, name: &[u8], rest: &[u8]) -> Kind
    requires { length name.now < 2 ^ 32 }
    ensures { result ≡ name_or_word at name.now rest.now }
{
    if name == b"factor".as_slice() && opens(rest) {
        Kind::FactorWord
    } else if name == b"qss".as_slice() && opens(rest) {
        Kind::QssWord
    } else if name == b"I".as_slice() && opens(rest) {
        Kind::ArithWord
    } else if name == b"offset".as_slice() && opens(rest) {
        Kind::OffsetWord
    } else {
        Kind::Name(Span {
            start: at,
            len: name.len() as u32,
        })
    }
}

fn next_backtick(text: &[u8]) -> Option<usize>
    ensures place { result ≡ position is_backtick text.now }
    ensures within { IfSome result (λ n. n < length text.now) }
{
    text.iter().position(|byte| *byte == b'`')
}

// What a backtick begins, before these bytes.
fn quoted(at: u32, rest: &[u8]) -> Lexeme
    requires { at + length rest.now + 1 < 2 ^ 31 }
    ensures { result ≡ quoted_to at (position is_backtick rest.now) }
{
    match next_backtick(rest) {
        None => Lexeme {
            kind: Kind::Stray,
            len: 1,
        },
        Some(len) => Lexeme {
            kind: Kind::Name(Span {
                start: at + 1,
                len: len as u32,
            }),
            len: len as u32 + 2,
        },
    }
}

fn mark_of(byte: u8) -> Kind
    ensures { result ≡ mark_of byte }
{
    match byte {
        b'+' => Kind::Signed(Sign::Plus),
        b'-' => Kind::Signed(Sign::Minus),
        b'~' => Kind::Tilde,
        b'*' => Kind::Star,
        b':' => Kind::Colon,
        b'^' => Kind::Caret,
        b'(' => Kind::Open,
        b')' => Kind::Close,
        b',' => Kind::Comma,
        b'.' => Kind::Point,
        _ => Kind::Stray,
    }
}

/// The token that stands at a place, where no blank does.
fn lexeme_at(text: &str, at: u32) -> Lexeme
    requires inside { at < length text.now }
    requires short { length text.now < 2 ^ 31 }
    ensures lexeme { result ≡ lexeme at (slice_index text.now at) (drop (at + 1) text.now) }
    ensures some { 1 ≤ result.len }
    ensures within { at + result.len ≤ length text.now }
{
    let bytes = text.as_bytes();
    let here = &bytes[at as usize..];
    let first = bytes[at as usize];
    let rest = &bytes[at as usize + 1..];
    if begins_name(first, rest) {
        let len = name_len(here);
        Lexeme {
            kind: name_or_word(at, &here[..len], &here[len..]),
            len: len as u32,
        }
    } else if begins_number(first, rest) {
        let len = number_len(here);
        Lexeme {
            kind: Kind::Number(read_numeral(&text[at as usize..at as usize + len])),
            len: len as u32,
        }
    } else if first == b'`' {
        quoted(at, rest)
    } else {
        Lexeme {
            kind: mark_of(first),
            len: 1,
        }
    }
}

/// The tokens of a text, the last of which is its end.
pub fn tokens_of(alloc: Global, text: &str) -> Result<List<Token>, OutOfMemory>
    requires { length text.now < 2 ^ 31 }
    ensures tokens { IfOk result (λ ts. ts ≡ tokens text.now) }
    ensures ended { IfOk result EndText }
{
    let bytes = text.as_bytes();
    let mut all = List::new(alloc);
    let mut at = 0;
    while at < bytes.len() {
        if is_blank(bytes[at]) {
            at += 1;
        } else {
            let Lexeme { kind, len } = lexeme_at(text, at as u32);
            let token = Token {
                kind,
                at: at as u32,
            };
            match all.push(token) {
                Ok(()) => {}
                Err(_) => return Err(OutOfMemory),
            }
            at += len as usize;
        }
    }
    let end = Token {
        kind: Kind::End,
        at: at as u32,
    };
    match all.push(end) {
        Ok(()) => Ok(all),
        Err(_) => Err(OutOfMemory),
    }
}
