//! Names, columns and rows of all smooths of a formula.

ghost use Rattle.std.specs.Prelude.{◌≡◌, ◌++◌, ◌-◌, ◌<◌, ◌^◌, IfErr, IfOk, OnOk, length, map, true, false};
ghost use Rattle.std.specs.List.{flat_map};
ghost use Rattle.frac_core.specs.Values.{exact};
ghost use Rattle.tv_penalty.specs.Faults.{HasCause, IsSound};
ghost use Rattle.tv_penalty.specs.Shapes.{IsShaped};
ghost use Rattle.tv_penalty.specs.Smoothings.{exact_smoothing, knot_entry as knot_entry_of, knot_name as knot_name_of, part_entries, part_names, smoothing_by, smoothing_of};
ghost use Rattle.tv_penalty.specs.Views.{part_seen};

use crate::knot::number_or_zero;
use crate::parts::{Part, Setting, with_columns};
use crate::rows::penalty_rows;
use crate::{PenaltyFault, Smoothing};
use data_frame::Frame;
use design_matrix::{Design, DesignRow};
use formula_parser::Formula;
use frac_core::{Exact, Frac128, List, Text, number_text};
use std::alloc::{AllocError, Global};
use std::cmp::Ordering;

// The name of a knot's column.
fn knot_name(alloc: Global, name: &str, knot: Frac128) -> Result<Text, AllocError>
    ensures { IfOk result (λ t. t ≡ knot_name_of name.now knot) }
{
    let value = match number_text(alloc, knot) {
        Ok(value) => value,
        Err(_) => return Err(AllocError),
    };
    let value = value.as_str();
    Ok(Text::from(format!(in alloc; "qss({name})[{value}]")?))
}

// 1 where the number is the knot, and else 0.
fn knot_entry(number: Frac128, knot: Frac128) -> Frac128
    ensures { exact result ≡ knot_entry_of (exact number) knot }
{
    match number.compare(knot) {
        Ordering::Less => Frac128::zero(),
        Ordering::Equal => Frac128::one(),
        Ordering::Greater => Frac128::zero(),
    }
}

impl Part<'_> {
    // Adds the names of the smooth's columns.
    fn put_names(
        &self,
        alloc: Global,
        intercept: bool,
        names: &mut Vec<Text>,
    ) -> Result<(), AllocError>
        ensures { OnOk result (names.new.items ≡ names.old.items ++ part_names intercept (part_seen self.now)) }
    {
        for knot in with_columns(intercept, &self.knots) {
            names.push(knot_name(alloc, self.smooth.name.as_str(), *knot)?)?;
        }
        Ok(())
    }

    // Adds the entries of a row in the smooth's columns.
    fn put_entries(
        &self,
        intercept: bool,
        row: &DesignRow,
        entries: &mut Vec<Frac128>,
    ) -> Result<(), AllocError>
        ensures { OnOk result (map exact entries.new.items
            ≡ map exact entries.old.items ++ part_entries intercept row.now (part_seen self.now)) }
    {
        let number = number_or_zero(self.cells, row.rec);
        for knot in with_columns(intercept, &self.knots) {
            entries.push(knot_entry(number, *knot))?;
        }
        Ok(())
    }
}

fn names_of(alloc: Global, intercept: bool, parts: &[Part<'_>]) -> Result<Vec<Text>, AllocError>
    ensures { IfOk result (λ names. names.items ≡ flat_map (part_names intercept) (map part_seen parts.now)) }
{
    let mut names = Vec::new(alloc);
    for part in parts {
        part.put_names(alloc, intercept, &mut names)?;
    }
    Ok(names)
}

// The entries of a row in the columns of all smooths.
fn entries_of(
    alloc: Global,
    intercept: bool,
    row: &DesignRow,
    parts: &[Part<'_>],
) -> Result<Vec<Frac128>, AllocError>
    ensures { IfOk result (λ x. map exact x.items ≡ flat_map (part_entries intercept row.now) (map part_seen parts.now)) }
{
    let mut entries = Vec::new(alloc);
    for part in parts {
        part.put_entries(intercept, row, &mut entries)?;
    }
    Ok(entries)
}

fn columns_of(
    alloc: Global,
    intercept: bool,
    rows: &[DesignRow],
    parts: &[Part<'_>],
) -> Result<Vec<List<Frac128>>, AllocError>
    ensures { IfOk result (λ columns. map (map exact) columns.items
        ≡ map (λ row. flat_map (part_entries intercept row) (map part_seen parts.now)) rows.now) }
{
    let mut columns = Vec::with_capacity(alloc, rows.len())?;
    for row in rows {
        columns.push(List::from(entries_of(alloc, intercept, row, parts)?))?;
    }
    Ok(columns)
}

// What smooths add to a design of these rows.
#[tactic(auto, unfolding(crate::specs::Smoothings::smoothing_of))]
fn assembled(
    alloc: Global,
    intercept: bool,
    rows: &[DesignRow],
    parts: &[Part<'_>],
) -> Result<Smoothing, AllocError>
    ensures { IfOk result (λ s. exact_smoothing s ≡ smoothing_of intercept rows.now (map part_seen parts.now)) }
{
    let names = names_of(alloc, intercept, parts)?;
    let columns = columns_of(alloc, intercept, rows, parts)?;
    let rows = penalty_rows(alloc, intercept, names.len(), parts)?;
    Ok(Smoothing {
        names: List::from(names),
        columns: List::from(columns),
        rows: List::from(rows),
    })
}

// What the smooths of a formula add to its design, with penalty rows or without.
fn smooths_added(
    alloc: Global,
    penalised: bool,
    frame: &Frame,
    design: &Design,
    model: &Formula,
) -> Result<Smoothing, PenaltyFault>
    ensures smoothing { IfOk result (λ s. exact_smoothing s ≡ smoothing_by penalised frame.now design.now model.now) }
    ensures sound { OnOk result (IsSound penalised frame.now design.now model.now) }
    ensures cause { IfErr result (HasCause penalised frame.now design.now model.now) }
{
    let setting = Setting {
        penalised,
        intercept: model.intercept,
        frame,
        rows: design.rows.as_slice(),
    };
    let width = design.names.as_slice().len();
    let parts = setting.parts(alloc, width, model.smooths.as_slice())?;
    match assembled(alloc, model.intercept, design.rows.as_slice(), &parts) {
        Ok(smoothing) => Ok(smoothing),
        Err(_) => Err(PenaltyFault::OutOfMemory),
    }
}

/// The columns that the smooths of a formula add to its design, with no penalty rows yet: one for each
/// knot, or beside an intercept for each but the first, with the entry 1 where the record's number is
/// the knot, and else 0. They are called `qss(NAME)[KNOT]`.
///
/// The design is one of this table by this formula. A fault is the first: smooth by smooth, and of one
/// smooth `NotNumeric`, `TooFewKnots`, and `TooManyColumns` exactly where the columns of the design
/// and of the smooths up to this one are more than 128. Want of memory may come at any step.
pub fn qss_columns(
    alloc: Global,
    frame: &Frame,
    design: &Design,
    model: &Formula,
) -> Result<Smoothing, PenaltyFault>
    ensures columns { IfOk result (λ s. exact_smoothing s ≡ smoothing_by false frame.now design.now model.now) }
    ensures shape { IfOk result (IsShaped design.now model.now) }
    ensures sound { OnOk result (IsSound false frame.now design.now model.now) }
    ensures cause { IfErr result (HasCause false frame.now design.now model.now) }
{
    smooths_added(alloc, false, frame, design, model)
}

/// The columns of `qss_columns`, and the penalty rows: for each inner knot of a smooth whose lambda is
/// above 0, in order, the change of slope there. With neighbours at the distances `g` below and `h` above it
/// is `1/g` times the value at the knot below, minus `1/g + 1/h` times the value at the knot, plus
/// `1/h` times the value at the knot above (Koenker, Ng and Portnoy 1994).
///
/// The faults are those of `qss_columns`, and after those of a smooth an `Overflow` exactly where an
/// operation of its rows overflows: the first by knot and by term.
pub fn qss_rows(
    alloc: Global,
    frame: &Frame,
    design: &Design,
    model: &Formula,
) -> Result<Smoothing, PenaltyFault>
    ensures rows { IfOk result (λ s. exact_smoothing s ≡ smoothing_by true frame.now design.now model.now) }
    ensures shape { IfOk result (IsShaped design.now model.now) }
    ensures sound { OnOk result (IsSound true frame.now design.now model.now) }
    ensures cause { IfErr result (HasCause true frame.now design.now model.now) }
{
    smooths_added(alloc, true, frame, design, model)
}
