//! What one layer answers: numbers, words, tables, formulas, designs, smooths, certificates and problems go in, and what is read or
//! found is told as a text, which is held to what a case wants.
//!
//! A line of a file is a case, `> what is asked => what is wanted`; or what the cases below it share, `= a table or a certificate, say`;
//! or a remark. In each text `\n`, `\r` and `\t` stand for those letters, `\\` for a backslash, and `\x` with two hexadecimal digits for
//! a byte; `\(3 text\)` is a text so many times, in which `\#` is the number of each, from 1.

use crate::kind::{Kind, tell};
use crate::told::Told;
use std::thread::Threads;

// Tries a case, and tells it where it isn't one, or where something else was told.
fn try_case<R: Threads + Sync>(rt: &R, report: &mut Told, kind: Kind, shared: &str, line: &str) {
    let Some((asked, wanted)) = line.rsplit_once(" => ") else {
        report.put_line(&["a case without its answer: ", line]);
        return;
    };
    let mut told = Told::new(report.alloc());
    tell(rt, &mut told, kind, shared, asked);
    if !told.is(wanted) {
        report.put_line(&[asked, " => ", told.as_str()]);
    }
    drop(told);
}

// Tries the cases among some lines, beside what they share. Gives how many there are.
fn try_group<R: Threads + Sync>(
    rt: &R,
    report: &mut Told,
    kind: Kind,
    shared: &str,
    lines: &str,
) -> u32 {
    let mut tried = 0u32;
    for line in lines.lines() {
        if let Some(case) = line.strip_prefix("> ") {
            try_case(rt, report, kind, shared, case);
            tried = tried.saturating_add(1);
        }
    }
    tried
}

/// Tries the cases of a text, those before the first line of what is shared too, and tells those that are wrong. Gives how many there are.
pub(crate) fn try_cases<R: Threads + Sync>(
    rt: &R,
    report: &mut Told,
    kind: Kind,
    text: &str,
) -> u32 {
    let (first, others) = text.split_once("\n= ").unwrap_or((text, ""));
    let mut tried = try_group(rt, report, kind, "", first);
    for group in others.split("\n= ") {
        let (shared, lines) = group.split_once('\n').unwrap_or((group, ""));
        tried = tried.saturating_add(try_group(rt, report, kind, shared, lines));
    }
    tried
}
