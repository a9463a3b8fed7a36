//! What is told of an answer, and the tables that are read.

use crate::notation::bytes_of;
use data_frame::{Frame, read_table};
use frac_core::{Exact, Frac128, Op, Text, number_text};
use loss_model::{Site, Spill};
use ratio::Ratio;
use std::alloc::Global;
use std::fmt::Debug;

/// A text that is made piece by piece. Where memory was wanting it isn't whole, and is no text that is wanted: so
/// nothing that adds to it has to give a fault back.
#[derive(Drop)]
pub(crate) struct Told {
    alloc: Global,
    text: String,
    whole: bool,
}

impl Told {
    pub(crate) fn new(alloc: Global) -> Told {
        Told {
            alloc,
            text: String::new(alloc),
            whole: true,
        }
    }

    pub(crate) fn alloc(&self) -> Global {
        self.alloc
    }

    pub(crate) fn as_str(&self) -> &str {
        self.text.as_str()
    }

    /// Whether it is what a case wants, in the notation of cases.
    pub(crate) fn is(&self, wanted: &str) -> bool {
        match bytes_of(self.alloc, wanted) {
            Some(bytes) => self.whole && self.text.as_bytes() == bytes.as_slice(),
            None => false,
        }
    }

    pub(crate) fn put(&mut self, piece: &str) {
        if self.text.push_str(piece).is_err() {
            self.whole = false;
        }
    }

    /// A line of pieces.
    pub(crate) fn put_line(&mut self, pieces: &[&str]) {
        for piece in pieces {
            self.put(piece);
        }
        self.put("\n");
    }

    /// What was told, or that memory was wanting.
    pub(crate) fn or_wanting(&self) -> &str {
        if self.whole {
            self.text.as_str()
        } else {
            "memory was wanting\n"
        }
    }

    /// What was told apart, behind a mark, where it is something else.
    pub(crate) fn put_other(&mut self, other: &Told) {
        if self.text.as_str() != other.text.as_str() {
            self.put(" | ");
            self.put(other.text.as_str());
        }
        self.whole = self.whole && other.whole;
    }

    /// Bytes that are a text.
    pub(crate) fn put_bytes(&mut self, bytes: &[u8]) {
        match std::str::from_utf8(bytes) {
            Ok(text) => self.put(text),
            Err(_) => self.whole = false,
        }
    }

    pub(crate) fn put_fraction<F: Exact>(&mut self, value: F) {
        match number_text(self.alloc, value) {
            Ok(text) => self.put(text.as_str()),
            Err(_) => self.whole = false,
        }
    }

    pub(crate) fn put_number(&mut self, value: Frac128) {
        self.put_fraction(value);
    }

    /// A number of any size.
    pub(crate) fn put_ratio(&mut self, value: &Ratio) {
        let mut text = Vec::new(self.alloc);
        match value.write(self.alloc, &mut text) {
            Ok(()) => self.put_bytes(text.as_slice()),
            Err(_) => self.whole = false,
        }
    }

    /// The same of several, with a space between them.
    pub(crate) fn put_ratios(&mut self, values: &[Ratio]) {
        let mut mark = "";
        for value in values {
            self.put(mark);
            self.put_ratio(value);
            mark = " ";
        }
    }

    pub(crate) fn put_count(&mut self, count: usize) {
        match count.to_string(self.alloc) {
            Ok(text) => self.put(text.as_str()),
            Err(_) => self.whole = false,
        }
    }

    /// A name and a number.
    pub(crate) fn put_named(&mut self, name: &str, number: u32) {
        self.put(name);
        self.put_count(number as usize);
    }

    /// Where an operation overflowed: two of its numbers and its term.
    pub(crate) fn put_site(&mut self, site: Site) {
        self.put_named("Overflow ", site.first);
        self.put_named(" ", site.second);
        self.put_named(" ", site.term);
    }

    /// The kind of an operation, and its operands.
    pub(crate) fn put_op<F: Exact>(&mut self, op: Op<F>) {
        self.put_debug(&op.kind);
        self.put(" ");
        self.put_fraction(op.left);
        self.put(" ");
        self.put_fraction(op.right);
    }

    /// The site of an operation that overflows, its kind and its operands.
    pub(crate) fn put_spill<F: Exact>(&mut self, spill: Spill<F>) {
        let site = spill.site;
        self.put_debug(&site.quantity);
        self.put_named(" ", site.first);
        self.put_named(" ", site.second);
        self.put_named(" ", site.third);
        self.put_named(" ", site.term);
        self.put(" ");
        self.put_op(Op {
            kind: site.kind,
            left: spill.left,
            right: spill.right,
        });
    }

    /// What `Debug` writes.
    pub(crate) fn put_debug(&mut self, value: &impl Debug) {
        match format!(in self.alloc; "{value:?}") {
            Ok(text) => self.put(text.as_str()),
            Err(_) => self.whole = false,
        }
    }

    /// Numbers with a space between them.
    pub(crate) fn put_fractions<F: Exact>(&mut self, numbers: &[F]) {
        let mut mark = "";
        for number in numbers {
            self.put(mark);
            self.put_fraction(*number);
            mark = " ";
        }
    }

    pub(crate) fn put_numbers(&mut self, numbers: &[Frac128]) {
        self.put_fractions(numbers);
    }

    /// Names with a mark between them.
    pub(crate) fn put_names(&mut self, names: &[Text], between: &str) {
        let mut mark = "";
        for name in names {
            self.put(mark);
            self.put(name.as_str());
            mark = between;
        }
    }
}

/// The table of the bytes.
pub(crate) fn frame_of(alloc: Global, bytes: &[u8]) -> Option<Frame> {
    if bytes.len() > 1 << 26 {
        return None;
    }
    read_table(alloc, bytes).ok()
}

/// The table that a case shares.
pub(crate) fn shared_frame(alloc: Global, shared: &str) -> Option<Frame> {
    frame_of(alloc, bytes_of(alloc, shared)?.as_slice())
}
