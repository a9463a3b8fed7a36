//! Runs with weights. The reports were worked out apart from the program: those of two records by hand,
//! those of a line by the pivot rule in fractions and the least loss over all bases.

use crate::helpers::{put_record, text_of};
use crate::runs::helpers::{Left, ran_on};
use std::alloc::Global;
use std::process::Abort;
use std::str::from_utf8;

// A number below 2^16 from the next of a sequence.
fn drawn(state: &mut u32) -> u32 {
    *state = state.wrapping_mul(1_664_525).wrapping_add(1_013_904_223);
    *state >> 16
}

// A table with weights from 0 to 3, and the table that has each of its records so many times.
fn repeated_tables(rt: &impl Abort, alloc: Global, number: u32) -> (String, String) {
    let mut state = number;
    let mut weighted = text_of(rt, alloc, "y,x,w\n0,0,1\n");
    let mut repeated = text_of(rt, alloc, "y,x\n0,0\n");
    for x in 1..8 {
        let (y, weight) = (drawn(&mut state) % 50, drawn(&mut state) % 4);
        put_record(rt, alloc, &mut weighted, &[y, x, weight]);
        for _ in 0..weight {
            put_record(rt, alloc, &mut repeated, &[y, x]);
        }
    }
    (weighted, repeated)
}

// What a report says of the loss; nothing where the run printed none.
fn loss_of(left: &Left) -> &str {
    let text = from_utf8(left.printed.as_slice()).unwrap_or("");
    text.lines()
        .find(|line| line.starts_with("loss "))
        .unwrap_or("")
}

// Both losses are there and are the same.
fn assert_same_loss(rt: &impl Abort, once: &str, often: &str, table: &str) {
    assert!(rt; !once.is_empty(), "{table}");
    assert!(rt; once == often, "{table}: {once} and {often}");
}

// The words of a fit at a tenth, and of the same with weights.
fn words_at(alloc: Global, tenths: u32) -> Option<(String, String)> {
    let line = format!(in alloc; "process|--formula|y ~ x|--lo|{tenths}/10|--hi|{tenths}/10").ok()?;
    let weighing = format!(in alloc; "{line}|--weights|w").ok()?;
    Some((line, weighing))
}

#[test]
fn whole_weights_are_repeated_records(rt: HostRuntime) {
    for number in 0..30 {
        let (line, weighing) = words_at(rt.alloc(), number % 9 + 1).expect(&rt, "memory");
        let (weighted, repeated) = repeated_tables(&rt, rt.alloc(), number);
        let once = ran_on(&rt, rt.alloc(), &weighing, weighted.as_bytes());
        let often = ran_on(&rt, rt.alloc(), &line, repeated.as_bytes());
        assert_same_loss(&rt, loss_of(&once), loss_of(&often), &weighted);
    }
}
