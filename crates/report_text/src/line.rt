//! The one printer of fault lines, and the kinds of their fields.
ghost use Rattle.std.specs.Prelude.{◌≡◌, ◌++◌, codes, decimal};
ghost use Rattle.std.specs.List.{flat_map};
ghost use Rattle.report_text.specs.FaultText.{fraction, fractions, indices_text, key, listed, number, operand, place_text, site_text, spill_text, text, word};
ghost use Rattle.report_text.specs.Fields.{shown};
ghost use Rattle.report_text.specs.ReportText.{numbered};

use crate::page::Page;
use crate::quantity::{PrintedIndices, indices, op_name, quantity_name};
use crate::report::Place;
use frac_core::{Frac128, Text};
use loss_model::{Site, Spill};
use ratio::Ratio;

/// A field of a line, by the kind of its value: a number or a length as it stands, a position, which is
/// printed from 1, a text, a fraction or several, the place of a stop, or an operation that overflows.
#[derive(Clone, Copy)]
pub(crate) enum Field<'a> {
    Number(&'static [u8], u32),
    Length(&'static [u8], u64),
    Position(&'static [u8], u32),
    Name(&'static [u8], &'a Text),
    Fraction(&'static [u8], &'a Ratio),
    Fractions(&'static [u8], &'a [Ratio]),
    Place(&'static [u8], Place),
    Spill(&'a Spill<Frac128>),
}

impl Page {
    /// Adds the line of a fault: its group, its name and its fields.
    pub(crate) fn line(&mut self, group: &[u8], name: &[u8], fields: &[Field])
        ensures { self.new ≡ self.old ++ (codes "quantreg: " ++ group.now ++ codes ": " ++ name.now ++ flat_map shown fields.now ++ codes "\n") }
    {
        self.put(b"quantreg: ");
        self.put(group);
        self.put(b": ");
        self.put(name);
        self.put_fields(fields);
        self.put(b"\n");
    }

    fn put_fields(&mut self, fields: &[Field])
        ensures { self.new ≡ self.old ++ flat_map shown fields.now }
    {
        for field in fields {
            self.put_field(field);
        }
    }

    fn put_field(&mut self, field: &Field)
        ensures { self.new ≡ self.old ++ shown field.now }
    {
        match field {
            Field::Number(name, count) => self.put_counted(name, *count as u64),
            Field::Length(name, length) => self.put_counted(name, *length),
            Field::Position(name, place) => self.put_counted(name, *place as u64 + 1),
            Field::Name(name, text) => self.put_text(name, text),
            Field::Fraction(name, number) => self.put_fraction(name, number),
            Field::Fractions(name, list) => self.put_fractions(name, list),
            Field::Place(name, place) => self.put_place(name, *place),
            Field::Spill(spill) => self.put_spill(spill),
        }
    }

    // What names a field.
    fn put_key(&mut self, name: &[u8])
        ensures { self.new ≡ self.old ++ key name.now }
    {
        self.put(b" ");
        self.put(name);
        self.put(b"=");
    }

    fn put_counted(&mut self, name: &[u8], count: u64)
        ensures { self.new ≡ self.old ++ number name.now count }
    {
        self.put_key(name);
        self.put_count(count);
    }

    fn put_word(&mut self, name: &[u8], told: &[u8])
        ensures { self.new ≡ self.old ++ word name.now told.now }
    {
        self.put_key(name);
        self.put(told);
    }

    fn put_place(&mut self, name: &[u8], place: Place)
        ensures { self.new ≡ self.old ++ word name.now (place_text place) }
    {
        self.put_key(name);
        match place {
            Place::Process => self.put(b"process"),
            Place::Interval { column, tau } => self.put_interval(column, tau),
            Place::Full => self.put(b"full"),
            Place::Path => self.put(b"path"),
        }
    }

    // The place of a rank interval, whose column is printed from 1.
    fn put_interval(&mut self, column: u32, tau: Frac128)
        ensures { self.new ≡ self.old ++ place_text (Place.Interval column tau) }
    {
        self.put(b"interval:");
        self.put_count(column as u64 + 1);
        self.put(b":");
        self.put_number(tau);
    }

    fn put_text(&mut self, name: &[u8], told: &Text)
        ensures { self.new ≡ self.old ++ text name.now told.now }
    {
        self.put_key(name);
        self.put_name(told);
    }

    fn put_fraction(&mut self, name: &[u8], told: &Ratio)
        ensures { self.new ≡ self.old ++ fraction name.now told.now }
    {
        self.put_key(name);
        self.put_ratio(told);
    }

    // An operand of an operation, which has 128 bits.
    fn put_operand(&mut self, name: &[u8], told: Frac128)
        ensures { self.new ≡ self.old ++ operand name.now told }
    {
        self.put_key(name);
        self.put_number(told);
    }

    fn put_fractions(&mut self, name: &[u8], told: &[Ratio])
        ensures { self.new ≡ self.old ++ fractions name.now told.now }
    {
        self.put_key(name);
        self.put_numbers(told);
    }

    // Fractions with commas between them.
    fn put_numbers(&mut self, numbers: &[Ratio])
        ensures { self.new ≡ self.old ++ numbered listed 0 numbers.now }
    {
        for (place, number) in numbers.iter().enumerate() {
            self.put_listed(place, number);
        }
    }

    // An item of a list, with a comma before all but the first.
    fn put_listed(&mut self, place: usize, number: &Ratio)
        ensures { self.new ≡ self.old ++ listed place number.now }
    {
        if place > 0 {
            self.put(b",");
        }
        self.put_ratio(number);
    }

    // Numbers with a comma between them.
    #[tactic(auto, unfolding(crate::specs::FaultText::indices_text))]
    fn put_indices(&mut self, indices: PrintedIndices)
        ensures { self.new ≡ self.old ++ indices_text indices }
    {
        match indices {
            PrintedIndices::One(first) => self.put_count(first),
            PrintedIndices::Two(first, second) => {
                self.put_count(first);
                self.put_after_comma(second)
            }
            PrintedIndices::Three(first, second, third) => {
                self.put_count(first);
                self.put_after_comma(second);
                self.put_after_comma(third)
            }
        }
    }

    fn put_after_comma(&mut self, count: u64)
        ensures { self.new ≡ self.old ++ (codes "," ++ decimal count) }
    {
        self.put(b",");
        self.put_count(count);
    }

    // Where an operation stands.
    #[tactic(auto, unfolding(crate::specs::FaultText::site_text))]
    fn put_site(&mut self, site: &Site)
        ensures { self.new ≡ self.old ++ site_text site.now }
    {
        self.put_word(b"quantity", quantity_name(site.quantity));
        self.put_key(b"at");
        self.put_indices(indices(site));
        self.put_counted(b"term", site.term as u64);
    }

    // An operation that overflows.
    #[tactic(auto, unfolding(crate::specs::FaultText::spill_text))]
    fn put_spill(&mut self, spill: &Spill<Frac128>)
        ensures { self.new ≡ self.old ++ spill_text spill.now }
    {
        self.put_site(&spill.site);
        self.put_word(b"op", op_name(spill.site.kind));
        self.put_operand(b"left", spill.left);
        self.put_operand(b"right", spill.right);
    }
}
