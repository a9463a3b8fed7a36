//! The limits that tokens keep, whatever the grammar says of them: open parentheses, exponents and the widths of numbers.
ghost use Rattle.std.specs.Prelude.{◌≡◌, ◌≤◌, IfNone};
ghost use Rattle.formula_grammar.specs.Faults.{depth_behind, is_power, limit_fault, number_fault};

use crate::fault::ReadFault;
use crate::token::{Kind, Numeral, Token, Whole};

// The most parentheses that may be open at once.
const MOST_OPEN: u32 = 64;

/// What limits depend on: how many parentheses are open, and the kind of the last token.
#[derive(Clone, Copy)]
pub(crate) struct Limits {
    pub opened: u32,
    pub last: Kind,
}

fn is_power(whole: Whole) -> bool
    ensures { result ≡ is_power whole }
{
    1 <= whole.power() && whole.power() <= 8
}

// The fault of a number: as an exponent, or as any other that stands in a formula.
fn number_fault(last: Kind, number: Numeral, offset: u32) -> Option<ReadFault>
    ensures { result ≡ number_fault last number offset }
{
    match (last, number) {
        (Kind::Caret, Numeral::Digits(whole)) => {
            if is_power(whole) {
                None
            } else {
                Some(ReadFault::PowerRange { offset })
            }
        }
        _ => {
            if number.is_wide() {
                Some(ReadFault::NumberTooWide { offset })
            } else {
                None
            }
        }
    }
}

impl Limits {
    /// Before the first token.
    pub(crate) fn new() -> Limits
        ensures { result ≡ record { opened = 0; last = Kind.End } }
    {
        Limits {
            opened: 0,
            last: Kind::End,
        }
    }

    fn fault(self, token: Token) -> Option<ReadFault>
        ensures { result ≡ limit_fault token.kind token.at self.opened self.last }
    {
        let offset = token.at;
        match token.kind {
            Kind::Open => {
                if self.opened >= MOST_OPEN {
                    Some(ReadFault::TooDeep { offset })
                } else {
                    None
                }
            }
            Kind::Number(number) => number_fault(self.last, number, offset),
            _ => None,
        }
    }

    /// The limit that a token passes, which becomes the last one.
    pub(crate) fn pass(&mut self, token: Token) -> Option<ReadFault>
        requires { self.old.opened ≤ MOST_OPEN }
        ensures fault { result ≡ limit_fault token.kind token.at self.old.opened self.old.last }
        ensures opened { self.new.opened ≡ depth_behind token.kind self.old.opened }
        ensures last { self.new.last ≡ token.kind }
        ensures few { IfNone result (self.new.opened ≤ MOST_OPEN) }
    {
        let fault = self.fault(token);
        self.last = token.kind;
        match token.kind {
            Kind::Open => self.opened += 1,
            Kind::Close => self.opened = self.opened.saturating_sub(1),
            _ => {}
        }
        fault
    }
}
