//! A table whose reading or printing fails at each call. The answers were worked out by hand from the rules.

use crate::helpers::copied;
use crate::runs::helpers::{
    Left, Outputs, SOUND, assert_printed, assert_refused, expect_left, ran,
};
use port_io::{MemSource, SureSource};
use std::alloc::Global;
use std::process::Abort;
use std::thread::Threads;

// Three points on two lines, 16 bytes.
static LINE: &str = "y,x\n0,0\n2,1\n3,3\n";

const WHOLE: &str = "process|--formula|y ~ x|--lo|0|--hi|1";

static WHOLE_REPORT: &str =
    "quantreg 1\nrecords 3 dropped 0\ncolumn 1 (Intercept)\ncolumn 2 x\ndata 3 penalty 0\npivots 2\nsegment 1 0 3/5\ncoef 1 0\ncoef 2 1\nloss 0 3/5\nscores *1*\nbasic 1 1 0\nbasic 3 1 1/5\nsegment 2 3/5 1\ncoef 1 3/2\ncoef 2 1/2\nloss 3/5 0\nscores 0**\nbasic 2 1 0\nbasic 3 1/5 0\nend\n";

// The run of the whole table over a source that takes so many bytes a read, and whose read of this number fails.
fn ran_in_pieces<R: Abort + Threads + Sync>(
    rt: &R,
    alloc: Global,
    piece: usize,
    read: u32,
) -> Left {
    assert!(rt; piece > 0);
    let bytes = copied(rt, alloc, LINE.as_bytes());
    let mut source = MemSource::new(bytes, piece, copied(rt, alloc, &[read]));
    ran(rt, alloc, WHOLE, &mut source, SOUND)
}

#[test]
fn each_read_may_fail(rt: HostRuntime) {
    for read in 1..8 {
        let left = ran_in_pieces(&rt, rt.alloc(), 3, read);
        assert_refused(&rt, &left, 3, "quantreg: source: SourceFault\n");
    }
    // There is no eighth read; and the table is read byte by byte.
    for (piece, read) in [(3, 8), (1, 0)] {
        let left = ran_in_pieces(&rt, rt.alloc(), piece, read);
        assert_printed(&rt, &left, WHOLE_REPORT);
    }
}

static SINK_FAULT: &str = "quantreg: sink: SinkFault\n";

// The run of the whole table into a sink that takes 16 bytes a write, and whose write of this number fails.
fn printed_with_a_fault<R: Abort + Threads + Sync>(rt: &R, alloc: Global, write: u32) -> Left {
    let mut source = SureSource::new(copied(rt, alloc, LINE.as_bytes()));
    let outputs = Outputs {
        room: 4096,
        piece: 16,
        write,
        telling: 0,
    };
    ran(rt, alloc, WHOLE, &mut source, outputs)
}

#[test]
fn each_write_may_fail(rt: HostRuntime) {
    let mut writes = 0u32;
    for (index, _) in WHOLE_REPORT.as_bytes().chunks(16).enumerate() {
        writes = writes.wrapping_add(1);
        let left = printed_with_a_fault(&rt, rt.alloc(), writes);
        let length = index.wrapping_mul(16);
        expect_left(&rt, &left, 4, (WHOLE_REPORT, length), SINK_FAULT);
    }
    let left = printed_with_a_fault(&rt, rt.alloc(), writes.wrapping_add(1));
    assert_printed(&rt, &left, WHOLE_REPORT);
}
