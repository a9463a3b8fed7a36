//! One hundred drawn rows of three-digit numbers, in ten columns and in five. In ten columns fractions of 128 bits
//! overflow on the way to the median.
//!
//! The figures come from another computation, of the optimal bases in fractions of any length.

use crate::bodies::in_wholes;
use crate::digest::digest_of;
use crate::helpers::{Ratio, data_row, expect, fraction, push, short, solve, walk};
use br_pivot::Solved;
use frac_core::{Exact, Frac128, List};
use loss_model::{Problem, Process, Row};
use std::alloc::Global;
use std::process::Abort;
use test_kit::draw;

/// A number from 100 to 999.
fn drawn(state: &mut u32) -> Ratio {
    let below = draw(state, 900);
    (i128::from(below) + 100, 1)
}

fn drawn_row(rt: &impl Abort, alloc: Global, columns: u32, state: &mut u32) -> Row<Frac128> {
    let mut x = Vec::new(alloc);
    for _ in 0..columns {
        push(rt, &mut x, fraction(rt, drawn(state)));
    }
    data_row(rt, List::from(x), drawn(state), (1, 1))
}

fn drawn_table(rt: &impl Abort, alloc: Global, columns: u32) -> Problem<Frac128> {
    let mut state = 7;
    let mut rows = Vec::new(alloc);
    for _ in 0..100 {
        push(rt, &mut rows, drawn_row(rt, alloc, columns, &mut state));
    }
    Problem {
        columns,
        rows: List::from(rows),
    }
}

/// The optimal basis at 1/2.
static BASIS: [u32; 10] = [2, 16, 28, 35, 36, 48, 58, 69, 75, 78];

/// The coefficients, and the dual values of the basis.
static COEF: [Ratio; 10] = [
    (-2328295557950456683258044166, 27679504009935307584102287197),
    (-4593435720156088333602143099, 27679504009935307584102287197),
    (5095065421284911279942210457, 27679504009935307584102287197),
    (-3291157111459456543700005268, 27679504009935307584102287197),
    (7475354314749109906581519312, 27679504009935307584102287197),
    (3177635801942533122081451031, 27679504009935307584102287197),
    (2930711994641700748034897391, 27679504009935307584102287197),
    (1471288959799990270819276195, 3954214858562186797728898171),
    (5599749269155884361639631906, 27679504009935307584102287197),
    (2604571471693308145031289925, 27679504009935307584102287197),
];

static BASIC: [Ratio; 10] = [
    (13504176469488568389950290793, 55359008019870615168204574394),
    (2290560250345181555733044967, 55359008019870615168204574394),
    (22737686560874243011565229757, 55359008019870615168204574394),
    (2616521009793627230142463027, 7908429717124373595457796342),
    (
        -26078591722008330632751147877,
        55359008019870615168204574394,
    ),
    (-262134147092448170750843161, 3954214858562186797728898171),
    (1234766496386200818102070300, 27679504009935307584102287197),
    (26012576557153923323293895197, 55359008019870615168204574394),
    (6249501832613396731779619049, 27679504009935307584102287197),
    (11117588799420701660123670157, 55359008019870615168204574394),
];

fn median(rt: &impl Abort, alloc: Global) -> Solved<Frac128> {
    let table = drawn_table(rt, alloc, 10);
    let answer = solve(rt, alloc, &table, fraction(rt, (1, 2)), 1000);
    drop(table);
    answer.ok().expect(rt, "an optimum")
}

#[test]
fn ten_columns_at_the_median(rt: HostRuntime) {
    let found = median(&rt, rt.alloc());
    assert!(&rt; found.vertex.basis.rows.as_slice() == BASIS.as_slice());
    expect(&rt, &found.vertex.coef, COEF.as_slice());
    expect(&rt, &found.basic, BASIC.as_slice());
    assert!(&rt; found.trail.steps.as_slice().len() == 21);
    drop(found);
}

/// The loss there.
const LOSS: Ratio = (
    576573062349643676873803696097893,
    55359008019870615168204574394,
);

fn median_process(rt: &impl Abort, alloc: Global) -> Process {
    let table = drawn_table(rt, alloc, 10);
    let half = fraction(rt, (1, 2));
    let answer = walk(rt, alloc, &table, (half, half), 1000);
    drop(table);
    answer.ok().expect(rt, "a process")
}

#[test]
fn ten_columns_as_a_process_at_the_median(rt: HostRuntime) {
    let process = median_process(&rt, rt.alloc());
    let segments = process.segments.as_slice();
    assert!(&rt; segments.len() == 1);
    let only = &segments[0];
    assert!(&rt; only.vertex.basis.rows.as_slice() == BASIS.as_slice());
    expect(&rt, &only.vertex.coef, COEF.as_slice());
    expect(&rt, &only.basic_hi, BASIC.as_slice());
    assert!(&rt; short(&rt, &only.loss_hi) == LOSS);
    drop(process);
}

fn whole_range(rt: &impl Abort, alloc: Global) -> Process {
    let table = drawn_table(rt, alloc, 5);
    let process = in_wholes(rt, alloc, &table, (Frac128::zero(), Frac128::one()));
    drop(table);
    process
}

#[test]
fn five_columns_over_the_whole_range(rt: HostRuntime) {
    let process = whole_range(&rt, rt.alloc());
    assert!(&rt; process.segments.as_slice().len() == 148);
    assert!(&rt; digest_of(&process) == -64600200990088842732543995565269542556);
    drop(process);
}
