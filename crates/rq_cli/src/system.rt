//! What stands between `main` and the top call: the words of the system, the three streams, and the
//! exit status.
ghost use Rattle.std.specs.Prelude.{◌≡◌, List, ℕ, None, drop, map, string_bytes};
ghost use Rattle.rq_cli.specs.Codes.{IsStatus};
ghost use Rattle.rq_cli.specs.Outcomes.{stream, AskSource};

use crate::top::run;
use port_io::{Sink, Source, StdSink, StdSource};
use rq_fan::Open;
use std::alloc::{Alloc, Global};
use std::env;
use std::env::Env;
use std::io::{Stderr, Stdin, Stdout};
use std::thread::Threads;

/// The arguments of the system, the program's name first. There are none where memory is wanting or
/// one of them isn't UTF-8.
pub fn arguments<R: Env + Alloc<A = Global>>(rt: &R) -> Option<Vec<String>> {
    env::args(rt).ok()?.collect(rt.alloc()).ok()
}

/// All of the program but what it takes from the system: the exit status of a run of the words behind
/// the program's name, over the three standard streams. Their types tell which is which.
pub fn program<R: Threads + Sync>(
    rt: &R,
    alloc: Global,
    arguments: &[String],
    input: &mut StdSource<Stdin>,
    output: &mut StdSink<Stdout>,
    errors: &mut StdSink<Stderr>,
) -> u8
    ensures ran { IsStatus (map string_bytes (drop 1 arguments.now))
        (stream None input.old.faults) (stream None input.new.faults)
        (stream None output.old.faults) (stream None output.new.faults)
        (stream None errors.old.faults) (stream None errors.new.faults) result }
    ensures unread { ¬ AskSource (map string_bytes (drop 1 arguments.now)) → input.new ≡ input.old }
{
    status(rt, alloc, words_behind(arguments), input, output, errors)
}

// The words behind the program's name.
fn words_behind(arguments: &[String]) -> &[String]
    ensures { result.now ≡ drop 1 arguments.now }
{
    match arguments.split_first() {
        Some((_name, words)) => words,
        None => arguments,
    }
}

/// The exit status of a run of the words over these streams.
pub fn status<R: Threads + Sync, S: Source, K: Sink, E: Sink>(
    rt: &R,
    alloc: Global,
    words: &[String],
    source: &mut S,
    out: &mut K,
    err: &mut E,
) -> u8
    ensures ran { IsStatus (map string_bytes words.now)
        (stream (S.left source.old) (S.faults source.old)) (stream (S.left source.new) (S.faults source.new))
        (stream (K.written out.old) (K.faults out.old)) (stream (K.written out.new) (K.faults out.new))
        (stream (E.written err.old) (E.faults err.old)) (stream (E.written err.new) (E.faults err.new)) result }
    ensures unread { ¬ AskSource (map string_bytes words.now) → source.new ≡ source.old }
{
    run(rt, alloc, words, source, out, err, &Open).into_code()
}
