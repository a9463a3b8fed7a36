//! Sums over all rows of cells times dual values, by the lines that these are in the quantile.
//!
//! Outside the basis a row's dual value is a line, which only its side chooses. So the sums of a column over these rows are
//! a line too, which serves both ends of a segment, and from one segment to the next it changes by the few rows that pass
//! to another side.
ghost use Rattle.std.specs.Prelude.{◌≡◌, ◌<◌, ◌*ℤ◌, ℕ, IfSome, length, get_or};
ghost use Rattle.rational_laws.specs.Rational.{◌+ℚ◌, ◌*ℚ◌, whole};
ghost use Rattle.rational_laws.specs.WholeLists.{whole_at};
ghost use Rattle.cert_sums.specs.Sums.{cell_at};
ghost use Rattle.cert_sums.specs.Slopes.{side_of, line_on, part_of, part_at, part_change, AreTotals, is_settled, unsettled_rows, listed_total, IsTally};
ghost use Rattle.cert_sums.specs.declared.slopes.Part.TheVariants.{Start, Slope};

use crate::table::{Line, WholeRow};
use frac_core::List;
use loss_model::Side;
use std::alloc::Global;

/// A part of a line.
#[derive(Clone, Copy)]
pub(crate) enum Part {
    Start,
    Slope,
}

/// For the entries of each column, and for the responses behind them, the sum over all rows of cell times start, and that
/// of cell times slope, by the sides of a vertex; and rows among which all basic ones are.
#[derive(Drop)]
pub(crate) struct Tally {
    pub(crate) starts: List<i128>,
    pub(crate) slopes: List<i128>,
    pub(crate) unsettled: List<usize>,
}

/// Rows, and how their sides change: the rows that are unsettled may have another line.
#[derive(Clone, Copy)]
struct Turn<'a> {
    rows: &'a [WholeRow],
    old: &'a [Side],
    new: &'a [Side],
    unsettled: &'a [usize],
}

/// The side of a row in a list.
#[inline]
pub(crate) fn side_at(sides: &[Side], row: usize) -> Side
    ensures { result ≡ side_of sides.now row }
{
    match sides.get(row) {
        Some(found) => *found,
        None => Side::Basic,
    }
}

// The line of a row on a side.
fn line_on(side: Side, row: &WholeRow) -> Line
    ensures { result ≡ line_on side row.now }
{
    match side {
        Side::Up => row.up,
        Side::Down => row.low,
        Side::Basic => Line { start: 0, slope: 0 },
    }
}

// A part of a line.
fn part_of(part: Part, line: Line) -> i64
    ensures { result ≡ part_of part line }
{
    match part {
        Part::Start => line.start,
        Part::Slope => line.slope,
    }
}

// Whether a row keeps its line, as most do.
#[inline]
fn is_settled(old: Side, new: Side) -> bool
    ensures { result ≡ is_settled old new }
{
    (old == new) & (old != Side::Basic)
}

/// The rows that may have another line.
pub(crate) fn unsettled_rows(
    alloc: Global,
    old: &[Side],
    new: &[Side],
    rows: usize,
) -> Option<List<usize>>
    ensures { IfSome result (λ made. made ≡ unsettled_rows old.now new.now rows) }
{
    let mut made = List::new(alloc);
    for i in 0..rows {
        if !is_settled(side_at(old, i), side_at(new, i)) {
            if made.push(i).is_err() {
                return None;
            }
        }
    }
    Some(made)
}

/// The cell of a row at a place, where there is one.
pub(crate) fn cell(rows: &[WholeRow], row: usize, place: usize) -> Option<i128>
    ensures { IfSome result (λ x. whole x ≡ cell_at rows.now place row) }
{
    if row >= rows.len() {
        return None;
    }
    let cells = rows[row].cells.as_slice();
    if place >= cells.len() {
        return None;
    }
    Some(cells[place])
}

// A part of the line of a row on its side, where there is such a row.
fn part_on(rows: &[WholeRow], sides: &[Side], row: usize, part: Part) -> Option<i64>
    ensures { IfSome result (λ x. whole x ≡ part_at part rows.now sides.now row) }
{
    if row >= rows.len() {
        return None;
    }
    Some(part_of(part, line_on(side_at(sides, row), &rows[row])))
}

// By how much that changes, where the row passes to its new side.
fn change_of(turn: Turn<'_>, part: Part, row: usize) -> Option<i128>
    ensures { IfSome result (λ d. whole d ≡ part_change part turn.entry.rows.now turn.entry.old.now turn.entry.new.now row) }
{
    let new = part_on(turn.rows, turn.new, row, part)?;
    let old = part_on(turn.rows, turn.old, row, part)?;
    let made = (new as i128).checked_sub(old as i128)?;
    Some(made)
}

// The same, of all unsettled rows.
fn changes_of(alloc: Global, turn: Turn<'_>, part: Part) -> Option<List<i128>>
    ensures { IfSome result (λ made. (j : ℕ) → j < length turn.entry.unsettled.now → whole_at made j ≡ part_change part turn.entry.rows.now turn.entry.old.now turn.entry.new.now (get_or turn.entry.unsettled.now j 0)) }
{
    let mut made = List::new(alloc);
    for j in 0..turn.unsettled.len() {
        let change = change_of(turn, part, turn.unsettled[j])?;
        if made.push(change).is_err() {
            return None;
        }
    }
    Some(made)
}

// A product, which is no call where both numbers have 64 bits.
#[inline]
fn product_of(x: i128, value: i128) -> Option<i128>
    ensures { IfSome result (λ y. y ≡ value *ℤ x) }
{
    match i64::try_from(x) {
        Ok(short) => match i64::try_from(value) {
            Ok(narrow) => Some(narrow as i128 * short as i128),
            Err(_) => value.checked_mul(x),
        },
        Err(_) => value.checked_mul(x),
    }
}

// A sum with the product of a row's cell more.
fn with_row(rows: &[WholeRow], row: usize, place: usize, value: i128, sum: i128) -> Option<i128>
    ensures { IfSome result (λ r. whole r ≡ whole sum +ℚ (cell_at rows.now place row *ℚ whole value)) }
{
    let x = cell(rows, row, place)?;
    let more = product_of(x, value)?;
    let made = sum.checked_add(more)?;
    Some(made)
}

/// A sum with the products of the cells of the rows of a list and their values more.
pub(crate) fn with_rows(
    rows: &[WholeRow],
    list: &[usize],
    values: &[i128],
    place: usize,
    first: i128,
) -> Option<i128>
    ensures { IfSome result (λ r. whole r ≡ whole first +ℚ listed_total rows.now place list.now values.now) }
{
    let mut sum = first;
    for j in 0..list.len() {
        sum = with_row(rows, list[j], place, number_at(values, j), sum)?;
    }
    Some(sum)
}

/// The number at a place, and 0 beyond the end.
#[inline]
pub(crate) fn number_at(numbers: &[i128], place: usize) -> i128
    ensures { whole result ≡ whole_at numbers.now place }
{
    match numbers.get(place) {
        Some(x) => *x,
        None => 0,
    }
}

// All totals of a part after that.
fn turned_totals(
    alloc: Global,
    turn: Turn<'_>,
    part: Part,
    width: usize,
    totals: &[i128],
) -> Option<List<i128>>
    requires unsettled { turn.unsettled.now ≡ unsettled_rows turn.old.now turn.new.now (length turn.rows.now) }
    requires totals { AreTotals part turn.rows.now width turn.old.now totals.now }
    ensures { IfSome result (AreTotals part turn.entry.rows.now width turn.entry.new.now) }
{
    let changes = changes_of(alloc, turn, part)?;
    let mut made = List::new(alloc);
    for k in 0..width {
        let total = with_rows(
            turn.rows,
            turn.unsettled,
            changes.as_slice(),
            k,
            number_at(totals, k),
        )?;
        if made.push(total).is_err() {
            return None;
        }
    }
    Some(made)
}

/// What a tally becomes as the unsettled rows pass from the old sides to the new ones.
pub(crate) fn turned(
    alloc: Global,
    rows: &[WholeRow],
    width: usize,
    tally: &Tally,
    old: &[Side],
    new: &[Side],
    unsettled: List<usize>,
) -> Option<Tally>
    requires unsettled { unsettled ≡ unsettled_rows old.now new.now (length rows.now) }
    requires starts { AreTotals Start rows.now width old.now tally.now.starts }
    requires slopes { AreTotals Slope rows.now width old.now tally.now.slopes }
    ensures { IfSome result (IsTally rows.now width new.now) }
{
    let turn = Turn {
        rows,
        old,
        new,
        unsettled: unsettled.as_slice(),
    };
    let starts = turned_totals(alloc, turn, Part::Start, width, tally.starts.as_slice())?;
    let slopes = turned_totals(alloc, turn, Part::Slope, width, tally.slopes.as_slice())?;
    Some(Tally {
        starts,
        slopes,
        unsettled,
    })
}

/// The tally of some sides, made from nothing.
pub(crate) fn tally_of(
    alloc: Global,
    rows: &[WholeRow],
    width: usize,
    sides: &[Side],
) -> Option<Tally>
    ensures { IfSome result (IsTally rows.now width sides.now) }
{
    let unsettled = unsettled_rows(alloc, &[], sides, rows.len())?;
    let nothing = Tally {
        starts: List::new(alloc),
        slopes: List::new(alloc),
        unsettled: List::new(alloc),
    };
    let all = turned(alloc, rows, width, &nothing, &[], sides, unsettled);
    drop(nothing);
    let all = all?;
    let Some(basic) = unsettled_rows(alloc, sides, sides, rows.len()) else {
        drop(all);
        return None;
    };
    Some(Tally {
        starts: all.starts,
        slopes: all.slopes,
        unsettled: basic,
    })
}
