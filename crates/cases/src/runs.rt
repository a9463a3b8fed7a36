//! Whole runs: words and a table go in, and every byte that is left is held to what a case wants.
//!
//! A case is
//!
//! ```text
//! # a remark, if there is one
//! > the words of the run, with a bar between them
//! the lines of the table, with a semicolon between them
//! what is wanted
//! ```
//!
//! and what is wanted is the printed report; or the end of one, behind a line `..`; or the exit status and the line of a fault. Words
//! behind ` => ` are those of a second run, which reads what the first has printed. A line with ` => ` between two texts, in place of a
//! table, is the text above the first case of the file, in which the second comes where the first stands: so a certificate stands once, and a
//! reader sees what was changed in it. Where nothing stands to the left it is the second alone, in the notation of the cases of a layer.

mod case;
mod running;

use crate::runs::case::{Case, case_of, shared_of};
use crate::runs::running::run_case;
use crate::told::Told;
use std::thread::Threads;

// Runs a case, and tells it where something else was left.
fn try_run<R: Threads + Sync>(rt: &R, report: &mut Told, case: &Case<'_>) {
    let Some(left) = run_case(rt, report.alloc(), case) else {
        report.put_line(&[case.words, ": memory was wanting"]);
        return;
    };
    if !left.is(case.wanted) {
        report.put(case.words);
        report.put_named(": ", u32::from(left.status()));
        report.put_line(&[" ", left.text()]);
    }
    drop(left);
}

/// Tries the cases of a text, each behind the mark at the beginning of its line, and tells those that are wrong. Gives how many there are.
pub(crate) fn try_cases<R: Threads + Sync>(rt: &R, report: &mut Told, text: &str) -> u32 {
    let shared = shared_of(text);
    let mut tried = 0u32;
    for block in text.split("\n>").skip(1) {
        match case_of(shared, block) {
            Some(case) => try_run(rt, report, &case),
            None => report.put_line(&[
                "a case that lacks a line, or changes what isn't there: ",
                block,
            ]),
        }
        tried = tried.saturating_add(1);
    }
    tried
}
