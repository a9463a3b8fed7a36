//! The rank intervals of a run are under way together, and so are the parts of a condition on a certificate.

use crate::meeting::Meeting;
use crate::runs::helpers::{assert_printed, counted, ran_at, ran_on};

static LINE: &str = "y,x\n0,0\n2,1\n3,3\n";

static REPORT: &str =
    "quantreg 1\nrecords 3 dropped 0\ncolumn 1 (Intercept)\ncolumn 2 x\ndata 3 penalty 0\npivots 1\nsegment 1 1/2 1/2\ncoef 1 0\ncoef 2 1\nloss 1/2 1/2\nscores *1*\nbasic 1 1/6 1/6\nbasic 3 1/3 1/3\ninterval 1 1/2 0 3/2\ninterval 2 1/2 1/2 2\nend\n";

#[test]
fn engine_gate(rt: HostRuntime) {
    let gate = Meeting::new();
    let words = "process|--formula|y ~ x|--lo|1/2|--hi|1/2|--crit|6/7|--rank-at|1/2";
    let left = ran_at(&rt, rt.alloc(), words, LINE.as_bytes(), &gate);
    assert_printed(&rt, &left, REPORT);
    assert!(rt; gate.took_place());
}

static CHECKED: &str =
    "quantreg check 1\ncolumns 1\nrows 128\nsegments 128\nintervals 0\naccepted\nend\n";

// The first job of a condition comes three times: for both bounds of the dual values, and once for all that is tested of sums.
#[test]
fn check_gate(rt: HostRuntime) {
    let table = counted(&rt, rt.alloc(), 128);
    let words = "certify|--formula|y ~ 1|--lo|0|--hi|1";
    let written = ran_on(&rt, rt.alloc(), words, table.as_bytes());
    let gate = Meeting::new();
    let left = ran_at(&rt, rt.alloc(), "check", &written.printed, &gate);
    assert_printed(&rt, &left, CHECKED);
    assert!(rt; gate.took_place());
    assert!(rt; gate.saw_three());
}
