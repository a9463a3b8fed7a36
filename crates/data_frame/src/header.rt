//! The names of the columns, and the first column where it only names rows.
ghost use Rattle.std.specs.Prelude.{◌≡◌, ◌≢◌, ◌⊎◌, ◌++◌, ◌∷◌, [], None, Some, true, map, position, string_bytes, Contains, IfNone, MatchResult, OnSome};
ghost use Rattle.std.specs.Str.{bytes_eq};
ghost use Rattle.csv.specs.Records.{fields_of};
ghost use Rattle.data_frame.specs.Records.{are_text};
ghost use Rattle.data_frame.specs.Faults.{header_fault, name_fault, names_of, set_aside};

use crate::TableFault;
use crate::records::text_at;
use csv::StringRecord;
use frac_core::{List, Text};
use indexmap::IndexSet;
use std::alloc::Global;
use std::marker::Model;

// The most fields of a header.
const MOST_COLUMNS: usize = 1024;

/// The names of columns, in order, and their places.
#[derive(Drop)]
pub(crate) struct Names {
    texts: List<Text>,
    places: IndexSet<String>,
}

impl Model for Names {
    ghost use Rattle.std.specs.Prelude.{◌≡◌, ℕ, List as list, map, string_bytes};

    ghost Value = { list (list ℕ) };

    ghost view = { λ n. n.texts };

    ghost invariant = { λ n. map string_bytes n.places.keys ≡ n.texts };
}

impl Names {
    pub(crate) fn as_slice(&self) -> &[Text]
        ensures { result.now ≡ self.now }
    {
        self.texts.as_slice()
    }

    // The place of a name.
    pub(crate) fn place(&self, name: &str) -> Option<usize>
        ensures place { result ≡ position (bytes_eq name.now) self.now }
        ensures known { OnSome result (Contains self.now name.now) }
        ensures unknown { IfNone result (¬ (Contains self.now name.now)) }
    {
        self.places.get_index_of(name)
    }
}

// How many columns are set aside: one, where the first of at least two names is empty.
pub(crate) fn set_aside(header: &StringRecord) -> usize
    ensures { result ≡ set_aside (fields_of header.now) }
{
    if header.len() >= 2 && text_at(header, 0).is_empty() {
        1
    } else {
        0
    }
}

// Adds the name that stands in a column, where it isn't empty and no name further left.
fn add_name(
    alloc: Global,
    texts: &mut List<Text>,
    places: &mut IndexSet<String>,
    name: &str,
    column: u32,
) -> Result<(), TableFault>
    requires { map string_bytes places.old.keys ≡ texts.old }
    ensures { MatchResult result
        (λ _. (name_fault column texts.old name.now ≡ None)
        × (texts.new ≡ texts.old ++ name.now ∷ [])
        × (map string_bytes places.new.keys ≡ texts.new))
        (λ e. (e ≡ TableFault.OutOfMemory)
        ⊎ (name_fault column texts.old name.now ≡ Some e)) }
{
    if name.is_empty() {
        return Err(TableFault::EmptyName { column });
    }
    let key = String::from_str(alloc, name)?;
    let (_, is_new) = places.insert_full(key)?;
    if !is_new {
        return Err(TableFault::DoubleName { column });
    }
    let text = Text::new(alloc, name)?;
    texts.add(text)?;
    Ok(())
}

// The names of a header's columns but for one that is set aside.
pub(crate) fn read_names(alloc: Global, header: &StringRecord) -> Result<Names, TableFault>
    requires { are_text (fields_of header.now) ≡ true }
    ensures { MatchResult result
        (λ names. (header_fault (fields_of header.now) ≡ None)
        × (names ≡ names_of (fields_of header.now)))
        (λ e. (e ≡ TableFault.OutOfMemory)
        ⊎ (header_fault (fields_of header.now) ≡ Some e)) }
{
    let len = header.len();
    if len > MOST_COLUMNS {
        return Err(TableFault::TooManyColumns);
    }
    let mut texts = List::new(alloc);
    let mut places = IndexSet::new(alloc);
    for column in set_aside(header)..len {
        let name = text_at(header, column);
        add_name(alloc, &mut texts, &mut places, name, column as u32)?;
    }
    Ok(Names { texts, places })
}
