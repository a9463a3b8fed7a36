//! The words of a command: what the program is asked to do.
//!
//! `read_words` gives the job of a list of words, or the first fault in the order of its checks.
//! The first word is the job; the words after it are read by `clap` as one command of options that
//! each take one value. What the words ask for is defined over `clap`'s own definition of such a
//! command, and over the number text of `frac_core`; the contract says that each job and each
//! fault is the one of that definition.
//! Its cases stand in `cases`.
//!
//! `rq_cli` calls it so:
//! ```text
//! match read_words(alloc, words) {
//!     Ok(job) => Ok(job),
//!     Err(WordFault::OutOfMemory) => Err(Fault::Halt(Halt::OutOfMemory)),
//!     Err(fault) => Err(Fault::Usage(fault)),
//! }
//! ```
#![tactic(auto)]

ghost use Rattle.std.specs.Prelude.{◌≡◌, ◌⊎◌, Err, map, string_bytes, drop};
ghost use Rattle.std.specs.List.{list_any};
ghost use Rattle.rq_words.specs.Requests.{request_or_fault};
ghost use Rattle.rq_words.specs.Words.{is_long, words_of, words_of_job};

mod checks;
mod command;
mod job;
mod numbers;
mod options;
mod requests;

use command::Kind;
pub use job::{FitJob, Job, PathJob, RankAsk, SampleJob, TestJob, WordFault};
use options::Options;
use requests::job_of;
use std::alloc::Global;

// A word of so many bytes or more is refused.
const LONG_WORD: usize = 1 << 31;

/// Reads the words after the program's name.
///
/// The first word is the job, and the options of each job are these; each takes one value, as
/// `--lo 1/2` or `--lo=1/2`.
///
/// | job | options that must stand | options that may stand |
/// |---|---|---|
/// | `process`, `certify` | `formula`, `lo`, `hi` | `weights`, `contrasts`, `pivots`, `crit`, `rank-at` |
/// | `ranks` | `formula` | `weights`, `contrasts`, `pivots` |
/// | `check` | none | none |
/// | `sample` | `number`, `rows`, `columns`, `lo`, `hi` | `pivots` |
/// | `test` | `formula`, `tested` | `weights`, `contrasts`, `pivots` |
/// | `predict` | `formula`, `lo`, `hi` | `weights`, `contrasts`, `pivots` |
/// | `path` | `formula`, `tau`, `lo`, `hi` | `weights`, `contrasts`, `pivots` |
///
/// `lo`, `hi`, `crit` and `tau` are number texts, and `rank-at` is up to 64 of them with commas between. `tested` is up
/// to 128 numbers of columns, counted from 1, of up to 3 digits, with commas between.
/// Where an option isn't given, the range is 0 to 1, the pivots are 100,000 and the contrasts are
/// treatment. Each fault comes exactly where the words have it and none that is looked for before;
/// want of memory alone may come at any step.
#[tactic(auto, unfolding(crate::specs::Words::words_of))]
pub fn read_words(alloc: Global, words: &[String]) -> Result<Job, WordFault>
    ensures { (result ≡ Err WordFault.OutOfMemory)
        ⊎ (request_or_fault result ≡ words_of (map string_bytes words.now)) }
{
    let Some(job) = words.first() else {
        return Err(WordFault::NoJob);
    };
    match Kind::of(job.as_str()) {
        Some(kind) => read_job(alloc, kind, words),
        None => Err(WordFault::UnknownJob),
    }
}

#[tactic(auto, using(crate::proofs::ItemTests::any_after_first), unfolding(crate::specs::Words::words_of_job))]
fn read_job(alloc: Global, kind: Kind, words: &[String]) -> Result<Job, WordFault>
    ensures { (result ≡ Err WordFault.OutOfMemory)
        ⊎ (request_or_fault result ≡ words_of_job kind (map string_bytes words.now)) }
{
    if has_long(words) {
        return Err(WordFault::BadOption);
    }
    match Options::read(alloc, kind, words) {
        Ok(options) => job_of(alloc, kind, &options),
        Err(fault) => Err(fault),
    }
}

// Whether a word after the first is too long.
fn has_long(words: &[String]) -> bool
    ensures { result ≡ list_any (λ word. is_long (string_bytes word)) (drop 1 words.now) }
{
    words.iter().skip(1).any(|word| word.len() >= LONG_WORD)
}
