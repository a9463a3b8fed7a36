//! The program: the words of the system, standard input, standard output and standard error handed on, and a
//! number handed back. The gate runs it on a job that has a report, and its script on jobs of every status, so that
//! what it prints and its status are compared.
#![tactic(auto)]

use port_io::{StdSink, StdSource};
use rq_cli::{Outcome, arguments, program};
use std::process::ExitCode;

/// Ends with the exit status of the program. Where the words can't be taken from the system, it is that of
/// want of memory, and nothing is read or written.
fn main(rt: HostRuntime) -> ExitCode {
    let Some(words) = arguments(&rt) else {
        return ExitCode::from(Outcome::OutOfMemory.code());
    };
    let mut input = StdSource::new(rt.stdin());
    let mut output = StdSink::new(rt.stdout());
    let mut errors = StdSink::new(rt.stderr());
    ExitCode::from(program(
        &rt,
        rt.alloc(),
        &words,
        &mut input,
        &mut output,
        &mut errors,
    ))
}
