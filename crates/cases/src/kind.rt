//! What the cases of a file are about.

use crate::derived::{Derived, derived_of};
use crate::ground::{Ground, ground_of};
use crate::told::Told;
use crate::{
    arithmetics, certificates, derived, designs, fault_lines, formulas, ground, predictions,
    readings, smooths, sums, tables, verdicts, words,
};
use std::thread::Threads;

/// What is asked of a layer.
#[derive(Clone, Copy)]
pub(crate) enum Kind {
    Words,
    Tables,
    Columns,
    Readings,
    Formulas,
    Terms,
    Arithmetics,
    Designs,
    Predictions,
    Smooths,
    SmoothColumns,
    SmoothSizes,
    Knots,
    Certificates,
    Changes,
    Verdicts,
    Writings,
    Sums,
    Ranks,
    FaultLines,
    Ground(Ground),
    Derived(Derived),
}

// The kind of cases of lower crates.
fn lower_kind(name: &str) -> Option<Kind> {
    match ground_of(name) {
        Some(ground) => Some(Kind::Ground(ground)),
        None => Some(Kind::Derived(derived_of(name)?)),
    }
}

/// The kind of the cases of a file, by its name.
pub(crate) fn kind_of(name: &str) -> Option<Kind> {
    let name = name.strip_suffix(".txt")?;
    let kind = match name {
        "words" => Kind::Words,
        "tables" => Kind::Tables,
        "columns" => Kind::Columns,
        "readings" => Kind::Readings,
        "formulas" => Kind::Formulas,
        "terms" => Kind::Terms,
        "arithmetics" => Kind::Arithmetics,
        "designs" => Kind::Designs,
        "predictions" => Kind::Predictions,
        "smooths" => Kind::Smooths,
        "smooth_columns" => Kind::SmoothColumns,
        "smooth_sizes" => Kind::SmoothSizes,
        "knots" => Kind::Knots,
        "certificates" => Kind::Certificates,
        "changes" => Kind::Changes,
        "verdicts" => Kind::Verdicts,
        "writings" => Kind::Writings,
        "sums" => Kind::Sums,
        "ranks" => Kind::Ranks,
        "fault_lines" => Kind::FaultLines,
        _ => return lower_kind(name),
    };
    Some(kind)
}

/// Tells the answer to what is asked, beside what its file shares.
pub(crate) fn tell<R: Threads + Sync>(
    rt: &R,
    told: &mut Told,
    kind: Kind,
    shared: &str,
    asked: &str,
) {
    match kind {
        Kind::Words => words::tell(told, shared, asked),
        Kind::Tables => tables::tell(told, asked),
        Kind::Columns => tables::tell_named(told, shared, asked),
        Kind::Readings => readings::tell(told, asked),
        Kind::Formulas => formulas::tell(told, shared, asked),
        Kind::Terms => formulas::tell_count(told, shared, asked),
        Kind::Arithmetics => arithmetics::tell(told, shared, asked),
        Kind::Designs => designs::tell(told, shared, asked),
        Kind::Predictions => predictions::tell(told, shared, asked),
        Kind::Smooths => smooths::tell(told, shared, asked),
        Kind::SmoothColumns => smooths::tell_columns(told, shared, asked),
        Kind::SmoothSizes => smooths::tell_size(told, shared, asked),
        Kind::Knots => smooths::tell_knots(told, shared, asked),
        Kind::Certificates => certificates::tell(told, asked),
        Kind::Changes => certificates::tell_changed(told, shared, asked),
        Kind::Verdicts => verdicts::tell(rt, told, shared, asked),
        Kind::Writings => certificates::tell_written(told, shared, asked),
        Kind::Sums => sums::tell(told, shared, asked),
        Kind::Ranks => sums::tell_interval(told, shared, asked),
        Kind::FaultLines => fault_lines::tell(told, asked),
        Kind::Ground(ground) => ground::tell(told, ground, shared, asked),
        Kind::Derived(derived) => derived::tell(told, derived, shared, asked),
    }
}
