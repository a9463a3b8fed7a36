//! Tables by their bytes, and what each holds.
//!
//! A table is told as the number of its records and then each column: its name, the cells of a
//! numeric column behind `#` and of a factor behind `~`, `-` for a missing cell, or behind `!` the
//! record of the first number that is too wide. A fault is told as `Debug` writes it.

use crate::notation::bytes_of;
use crate::told::{Told, shared_frame};
use data_frame::{Column, Frame, read_table};
use frac_core::{Frac128, Text};

fn tell_numbers(told: &mut Told, cells: &[Option<Frac128>]) {
    let mut mark = "#";
    for cell in cells {
        told.put(mark);
        mark = ",";
        match cell {
            Some(number) => told.put_number(*number),
            None => told.put("-"),
        }
    }
}

fn tell_texts(told: &mut Told, cells: &[Option<Text>]) {
    let mut mark = "~";
    for cell in cells {
        told.put(mark);
        mark = ",";
        match cell {
            Some(text) => told.put(text.as_str()),
            None => told.put("-"),
        }
    }
}

fn tell_column(told: &mut Told, column: Option<Column<'_>>) {
    match column {
        Some(Column::Numbers(cells)) => tell_numbers(told, cells),
        Some(Column::Factor(cells)) => tell_texts(told, cells),
        Some(Column::TooWide { rec }) => told.put_named("!", rec),
        None => told.put("no column"),
    }
}

fn tell_frame(told: &mut Told, frame: &Frame) {
    told.put_count(frame.records() as usize);
    for name in frame.names() {
        told.put(" ");
        told.put(name.as_str());
        tell_column(told, frame.column(name.as_str()));
    }
}

fn tell_table(told: &mut Told, bytes: &[u8]) {
    if bytes.len() > 1 << 26 {
        return told.put("too long");
    }
    let answer = read_table(told.alloc(), bytes);
    match &answer {
        Ok(frame) => tell_frame(told, frame),
        Err(fault) => told.put_debug(fault),
    }
    drop(answer);
}

/// What a table holds, or its fault.
pub(crate) fn tell(told: &mut Told, asked: &str) {
    match bytes_of(told.alloc(), asked) {
        Some(bytes) => tell_table(told, bytes.as_slice()),
        None => told.put("no bytes"),
    }
}

/// The column of a table that has this name.
pub(crate) fn tell_named(told: &mut Told, shared: &str, asked: &str) {
    match shared_frame(told.alloc(), shared) {
        Some(frame) => {
            tell_column(told, frame.column(asked));
            drop(frame);
        }
        None => told.put("no table"),
    }
}
