//! Cases as data: what one layer answers, and whole runs.
//!
//! The words of this program are names of files with cases; the name of a file says what its cases are about. Of each file it prints how
//! many of its cases were tried, and before that each case of which something else was told or left, with that. So the gate, which
//! compares what is printed, fails on a case that is wrong or missing, and a case more proves nothing anew.
//!
//! Cases of one layer are lines (`layers`); files whose names begin with `run_` have whole runs, which are blocks (`runs`). What each answer
//! should be was worked out apart from the program. What a text can't hold (streams that fail, gates, want of memory) stands in the tests of
//! `edge_tests`. The crate stands on `rq_cli`; on `formula_arith`, `predict_steps` and `table_maker`; and on `lambda_path`, `nested_test`,
//! `tau_process` and `rank_inversion`.
#![tactic(auto)]

mod arithmetics;
mod certificates;
mod codings;
mod derived;
mod designs;
mod evaluations;
mod fault_lines;
mod formulas;
mod fractions;
mod generated;
mod grams;
mod ground;
mod intervals;
mod kind;
mod layers;
mod losses;
mod models;
mod naturals;
mod nested;
mod notation;
mod numbers;
mod paths;
mod predictions;
mod problems;
mod projections;
mod ratios;
mod readings;
mod runs;
mod smooths;
mod solves;
mod starts;
mod steps;
mod sums;
mod tables;
mod told;
mod trails;
mod verdicts;
mod wides;
mod words;

use crate::kind::kind_of;
use crate::told::Told;
use std::alloc::Global;
use std::thread::Threads;
use std::{env, fs, io};

// Tries the cases of a file, and tells those that are wrong. Gives how many there are, or none for a file of no kind.
fn try_cases<R: Threads + Sync>(rt: &R, report: &mut Told, name: &str, text: &str) -> Option<u32> {
    if name.starts_with("run_") {
        return Some(runs::try_cases(rt, report, text));
    }
    let kind = kind_of(name)?;
    Some(layers::try_cases(rt, report, kind, text))
}

// Tries the cases of a file, and prints those that are wrong and how many there are.
fn try_file<R: Threads + Sync + Print>(
    rt: &R,
    alloc: Global,
    name: &str,
    text: &str,
) -> io::Result<()> {
    let mut report = Told::new(alloc);
    let tried = try_cases(rt, &mut report, name, text);
    let wrong = report.or_wanting();
    let printed = match tried {
        Some(tried) => println!(rt; "{wrong}{name}: {tried} cases"),
        None => println!(rt; "{name}: a file of no kind"),
    };
    drop(report);
    printed
}

/// Tries the cases of each file that is named.
fn main(rt: HostRuntime) -> io::Result<()> {
    let alloc = rt.alloc();
    for name in env::args(&rt)?.skip(1) {
        let text = fs::read_to_string(&rt, name.as_str())?;
        try_file(&rt, alloc, name.as_str(), text.as_str())?;
    }
    Ok(())
}
