//! The top call.
ghost use Rattle.std.specs.Prelude.{◌≡◌, ◌≢◌, ◌⊎◌, ℕ, List, ◌<◌, ◌≤◌, length, map, string_bytes, IfOk, IfErr, OnOk};
ghost use Rattle.rq_engine.specs.Answers.{HasCause, IsRight};
ghost use Rattle.rq_engine.specs.Jobs.{IsJobOf};
ghost use Rattle.report_text.specs.ReportText.{report_text};
ghost use Rattle.rq_words.specs.Requests.{Reads};
ghost use Rattle.rq_cli.specs.Outcomes.{outcome_line, stream, AskSource, IsAnswered, IsFault, IsRun, Takes};
ghost use Rattle.port_io.specs.Told.{most_bytes};
ghost use Rattle.rq_cli.specs.Steps.{outcome_of, IsSourceFault, IsWordFault, WasTold, WasPrinted};

use crate::outcome::Outcome;
use port_io::{Failed, ReadFault, Sink, Source, read_all, write_all};
use report_text::{
    Fault, Halt, MEMORY_LINE, Refusal, Report, SINK_LINE, SOURCE_LINE, fault_line, report_bytes,
};
use rq_engine::answer;
use rq_fan::Gate;
use rq_words::{Job, WordFault, read_words};
use std::alloc::Global;
use std::thread::Threads;

/// All that the program does: reads the source where the words ask for a job that has one, and writes the
/// report to `out` or the line of a fault to `err`. The whole text is made before the first byte of it is written.
///
/// - `Usage` comes exactly where the words are refused by that fault. It leaves the source untouched, and so does the job
///   `sample`, which makes its own table.
/// - `Refused` comes exactly where more than 2^26 bytes come, or where this is the first fault: of the bytes as a table, of
///   the formula over its names, of their design, of what its smooths add, or of the problem; for `test` also of its
///   tested columns; for `predict` also where there is nothing to predict or too much, or of a predicted record's row; for
///   `check` of the bytes as a certificate; as `CertTooLong` where the text of a certificate to be written is longer than
///   2^26 bytes, its rows times its segments exceed 2^30, or a number of it has more than 65,536 digits; and as `Dependent`
///   only where the columns of the problem are dependent.
/// - `Rejected` comes exactly where a condition of a certificate is false: it is the first, all tests before it being true.
/// - `PivotLimit` comes only where the lawful trail of its place, of the problem or of a rank interval, has as many pivots
///   as the words' limit says and one more is left, and `Overflow` only where an operation of its place overflows: of the
///   fit, of a rank interval, of the start of a rank test's whole problem, or of the costs of a path. A stop of an interval
///   is that of the first one that stops.
/// - `SourceFault` comes only where the words ask for a job that reads the source and its count of faults rose in this
///   call; where it grew there is no other outcome, unless the line of `SourceFault` couldn't be told.
/// - `SinkFault` comes only where the count of `out` or of `err` rose; where one grew there is no other outcome.
/// - `OutOfMemory` may come in place of what would follow, and never after a write to `out`.
///
/// The rank intervals are jobs at once, and so are the parts of a condition that `check` tests on the segments. Each enters
/// the gate, with its place among them, before it works.
pub fn run<R: Threads + Sync, S: Source, K: Sink, E: Sink, G: Gate>(
    rt: &R,
    alloc: Global,
    words: &[String],
    source: &mut S,
    out: &mut K,
    err: &mut E,
    gate: &G,
) -> Outcome
    ensures ran { IsRun (map string_bytes words.now)
        (stream (S.left source.old) (S.faults source.old)) (stream (S.left source.new) (S.faults source.new))
        (stream (K.written out.old) (K.faults out.old)) (stream (K.written out.new) (K.faults out.new))
        (stream (E.written err.old) (E.faults err.old)) (stream (E.written err.new) (E.faults err.new)) result }
    ensures unread { ¬ AskSource (map string_bytes words.now) → source.new ≡ source.old }
{
    match work(rt, alloc, words, source, gate) {
        Ok((report, text)) => print(report, &text, out, err),
        Err(fault) => tell(alloc, fault, err),
    }
}

// The report of the words and the source with its text, or what keeps the run from it.
fn work<R: Threads + Sync, S: Source, G: Gate>(
    rt: &R,
    alloc: Global,
    words: &[String],
    source: &mut S,
    gate: &G,
) -> Result<(Report, Vec<u8>), Fault>
    ensures answered { IfOk result (λ done. IsAnswered (map string_bytes words.now)
        (stream (S.left source.old) (S.faults source.old)) (stream (S.left source.new) (S.faults source.new)) done.0) }
    ensures text { IfOk result (λ done. done.1.items ≡ report_text done.0) }
    ensures cause { IfErr result (λ fault. IsFault (map string_bytes words.now)
        (stream (S.left source.old) (S.faults source.old)) (stream (S.left source.new) (S.faults source.new)) (outcome_of fault)) }
    ensures steady { OnOk result (S.faults source.new ≤ S.faults source.old) }
    ensures grew { IfErr result (λ fault. S.faults source.old < S.faults source.new → fault ≡ Fault.Source) }
    ensures unread { ¬ AskSource (map string_bytes words.now) → source.new ≡ source.old }
{
    let job = match read_job(alloc, words) {
        Ok(job) => job,
        Err(fault) => return Err(fault),
    };
    let bytes = match read_source(alloc, &job, source) {
        Ok(bytes) => bytes,
        Err(fault) => {
            drop(job);
            return Err(fault);
        }
    };
    match written(rt, alloc, &job, &bytes, gate) {
        Ok(done) => {
            drop(job);
            Ok(done)
        }
        Err(halt) => {
            drop(job);
            Err(Fault::Halt(halt))
        }
    }
}

// The report of a job for the bytes, with its text. It stands alone for the check's sake: what it lets go is large.
fn written<R: Threads + Sync, G: Gate>(
    rt: &R,
    alloc: Global,
    job: &Job,
    bytes: &[u8],
    gate: &G,
) -> Result<(Report, Vec<u8>), Halt>
    requires asked { (words : List (List ℕ)) × IsJobOf words job.now }
    requires short { length bytes.now ≤ most_bytes }
    ensures right { IfOk result (λ done. IsRight job.now bytes.now done.0) }
    ensures text { IfOk result (λ done. done.1.items ≡ report_text done.0) }
    ensures cause { IfErr result (HasCause job.now bytes.now) }
{
    let report = match answer(rt, alloc, job, bytes, gate) {
        Ok(report) => report,
        Err(halt) => return Err(halt),
    };
    match report_bytes(alloc, &report) {
        Ok(text) => Ok((report, text)),
        Err(_) => {
            drop(report);
            Err(Halt::OutOfMemory)
        }
    }
}

// The job that the words ask for.
fn read_job(alloc: Global, words: &[String]) -> Result<Job, Fault>
    ensures asked { IfOk result (IsJobOf (map string_bytes words.now)) }
    ensures refused { IfErr result (IsWordFault (map string_bytes words.now)) }
{
    match read_words(alloc, words) {
        Ok(job) => Ok(job),
        Err(WordFault::OutOfMemory) => Err(Fault::Halt(Halt::OutOfMemory)),
        Err(fault) => Err(Fault::Usage(fault)),
    }
}

// The bytes that a job takes from the source.
fn read_source<S: Source>(alloc: Global, job: &Job, source: &mut S) -> Result<Vec<u8>, Fault>
    ensures taken { IfOk result (λ bytes. Takes job.now
        (stream (S.left source.old) (S.faults source.old)) (stream (S.left source.new) (S.faults source.new)) bytes.items) }
    ensures short { IfOk result (λ bytes. length bytes.items ≤ most_bytes) }
    ensures cause { IfErr result (λ fault. IsSourceFault job.now
        (stream (S.left source.old) (S.faults source.old)) (stream (S.left source.new) (S.faults source.new)) fault) }
    ensures steady { OnOk result (S.faults source.new ≤ S.faults source.old) }
    ensures grew { IfErr result (λ fault. S.faults source.old < S.faults source.new → fault ≡ Fault.Source) }
    ensures unread { ¬ Reads job.now → source.new ≡ source.old }
{
    if !job.reads() {
        return Ok(Vec::new(alloc));
    }
    match read_all(alloc, source) {
        Ok(bytes) => Ok(bytes),
        Err(ReadFault::Failed) => Err(Fault::Source),
        Err(ReadFault::TooLong) => Err(Fault::Halt(Halt::Refused(Refusal::TooLong))),
        Err(ReadFault::OutOfMemory) => Err(Fault::Halt(Halt::OutOfMemory)),
    }
}

// Writes a report. After a failed write one line is still tried on `err`, and the report is let go by its type: what a
// function lets go of so many kinds by itself takes long to prove.
fn print<K: Sink, E: Sink>(report: Report, text: &[u8], out: &mut K, err: &mut E) -> Outcome
    requires { text.now ≡ report_text report }
    ensures { WasPrinted report result
        (stream (K.written out.old) (K.faults out.old)) (stream (K.written out.new) (K.faults out.new))
        (stream (E.written err.old) (E.faults err.old)) (stream (E.written err.new) (E.faults err.new)) }
{
    match write_all(out, text) {
        Ok(()) => Outcome::Done(report),
        Err(Failed) => {
            let _tried = write_all(err, SINK_LINE);
            drop(report);
            Outcome::SinkFault
        }
    }
}

// Writes the line of what went wrong, or that of want of memory where the line finds none. The line
// of a failing source is a constant, so it needs none.
fn tell<E: Sink>(alloc: Global, fault: Fault, err: &mut E) -> Outcome
    ensures { let before = stream (E.written err.old) (E.faults err.old) in
        let now = stream (E.written err.new) (E.faults err.new) in
        WasTold (outcome_of fault) result before now ⊎ ((fault ≢ Fault.Source) × WasTold Outcome.OutOfMemory result before now) }
{
    if let Fault::Source = fault {
        drop(fault);
        return write_line(err, SOURCE_LINE, Outcome::SourceFault);
    }
    match fault_line(alloc, &fault) {
        Ok(line) => write_line(err, &line, Outcome::of(fault)),
        Err(_) => {
            drop(fault);
            write_line(err, MEMORY_LINE, Outcome::OutOfMemory)
        }
    }
}

// Writes the line of a fault, which is the outcome unless the sink fails.
fn write_line<E: Sink>(err: &mut E, line: &[u8], outcome: Outcome) -> Outcome
    requires { line.now ≡ outcome_line outcome }
    ensures { WasTold outcome result (stream (E.written err.old) (E.faults err.old)) (stream (E.written err.new) (E.faults err.new)) }
{
    match write_all(err, line) {
        Ok(()) => outcome,
        Err(Failed) => {
            drop(outcome);
            Outcome::SinkFault
        }
    }
}
