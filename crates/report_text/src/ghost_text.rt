//! The text that a page is to have, for proofs alone: it takes no memory, and nothing is done when it is made.
ghost use Rattle.std.specs.Prelude.{◌≡◌, List, ℕ};
ghost use Rattle.std.specs.Borrow.{ftrue};

use loss_model::Side;
use ratio::Ratio;
use std::marker::Model;

/// A text, which clauses read as `text`. What it has to do with bytes in memory, the invariant of its holder says.
#[derive(Drop)]
pub(crate) struct GhostText {
    ghost text: { List ℕ },
}

impl Model for GhostText {
    ghost also_owns = { λ _. ftrue };
}

/// What a text is said to be: nothing, or an earlier one and behind it bytes, or a fraction of any size, which stands for its text, or
/// the sides of rows, which stand for their marks, those before a row as data rows.
#[derive(Clone, Copy, Drop)]
pub(crate) enum Said<'a> {
    Nothing,
    Bytes(&'a GhostText, &'a [u8]),
    Fraction(&'a GhostText, &'a Ratio),
    Marks(&'a GhostText, u32, &'a [Side]),
}

impl GhostText {
    ghost use Rattle.report_text.specs.Said.{said_text};

    /// The text that is said.
    #[inline(always)]
    pub(crate) fn of(_said: &Said<'_>) -> GhostText
        ensures { result.text ≡ said_text _said.now }
    {
        GhostText {}
    }
}
