//! Sources and sinks that fail in their midst: a prefix of the report is printed, and a line is told.

use crate::helpers::copied;
use crate::runs::helpers::{Left, MEDIAN, Outputs, SOUND, assert_printed, expect_left, ran};
use port_io::MemSource;
use std::alloc::Global;
use std::process::Abort;
use std::thread::Threads;

// A table of one column.
static TABLE: &str = "y\n1\n2\n3\n";

// Its report at the median.
static REPORT: &str =
    "quantreg 1\nrecords 3 dropped 0\ncolumn 1 (Intercept)\ndata 3 penalty 0\npivots 1\nsegment 1 1/2 1/2\ncoef 1 2\nloss 1 1\nscores 0*1\nbasic 2 1/2 1/2\nend\n";

/// The read that fails, the room of standard output, its write that fails, and that of standard error; none fails at 0.
type Failing = (u32, usize, u32, u32);

// Each case: what fails, the exit status and how many bytes of the report were printed, and what was told. A read takes
// 4 bytes, so the third finds the end of TABLE, and a write 5, so REPORT goes out in 29 pieces.
static STREAMS: [(Failing, (u8, usize), &str); 17] = [
    ((0, 4096, 0, 0), (0, 145), ""),
    ((1, 4096, 0, 0), (3, 0), "quantreg: source: SourceFault\n"),
    ((2, 4096, 0, 0), (3, 0), "quantreg: source: SourceFault\n"),
    ((3, 4096, 0, 0), (3, 0), "quantreg: source: SourceFault\n"),
    ((4, 4096, 0, 0), (0, 145), ""),
    ((2, 4096, 0, 1), (4, 0), ""),
    ((2, 4096, 0, 6), (4, 0), "quantreg: source: SourceF"),
    ((0, 4096, 1, 0), (4, 0), "quantreg: sink: SinkFault\n"),
    ((0, 4096, 3, 0), (4, 10), "quantreg: sink: SinkFault\n"),
    ((0, 4096, 29, 0), (4, 140), "quantreg: sink: SinkFault\n"),
    ((0, 4096, 30, 0), (0, 145), ""),
    ((0, 145, 0, 0), (0, 145), ""),
    ((0, 144, 0, 0), (4, 144), "quantreg: sink: SinkFault\n"),
    ((0, 0, 0, 0), (4, 0), "quantreg: sink: SinkFault\n"),
    ((0, 4096, 3, 1), (4, 10), ""),
    ((0, 4096, 3, 2), (4, 10), "quant"),
    ((0, 4096, 0, 1), (0, 145), ""),
];

// The run of TABLE and REPORT over streams that may fail.
fn ran_through<R: Abort + Threads + Sync>(
    rt: &R,
    alloc: Global,
    (read, room, write, telling): Failing,
) -> Left {
    let bytes = copied(rt, alloc, TABLE.as_bytes());
    let mut source = MemSource::new(bytes, 4, copied(rt, alloc, &[read]));
    let outputs = Outputs {
        room,
        piece: 5,
        write,
        telling,
    };
    ran(rt, alloc, MEDIAN, &mut source, outputs)
}

#[test]
fn failing_streams_leave_a_prefix_and_a_line(rt: HostRuntime) {
    for (failing, (status, length), told) in &STREAMS {
        let left = ran_through(&rt, rt.alloc(), *failing);
        expect_left(&rt, &left, *status, (REPORT, *length), told);
    }
}

// The first read of a generated table's source would fail, and all others too.
#[test]
fn the_source_is_left_alone(rt: HostRuntime) {
    let line = "sample|--number|1|--rows|2|--columns|1|--lo|0|--hi|1";
    let summary =
        "quantreg sample 1\nrecords 2 dropped 0\ncolumns 2\nsegments 1\npivots 0\nloss 0 0\nend\n";
    let fails = copied(&rt, rt.alloc(), &[1, 2, 3]);
    let mut source = MemSource::new(copied(&rt, rt.alloc(), TABLE.as_bytes()), 4, fails);
    let left = ran(&rt, rt.alloc(), line, &mut source, SOUND);
    assert_printed(&rt, &left, summary);
}
