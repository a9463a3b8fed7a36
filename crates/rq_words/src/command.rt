//! The commands and their options, as `clap` reads them.
ghost use Rattle.std.specs.Prelude.{◌≡◌, ◌⊎◌, Some, None, [], IfOk, MatchResult, codes, false, map, string_bytes};
ghost use Rattle.clap.specs.Words.{app_of, rows_of, found_of, rule_of};
ghost use Rattle.rq_words.specs.Commands.{option_rule, command_of, kind_of, options_of, read_by, with_rules};
ghost use Rattle.rq_words.specs.Words.{is_over_lambda};

use clap::{Arg, ArgAction, Command};
use std::alloc::{AllocError, Global};

/// The kinds of job.
#[derive(Clone, Copy)]
pub(crate) enum Kind {
    Process,
    Ranks,
    Certify,
    Check,
    Sample,
    Test,
    Predict,
    Path,
}

impl Kind {
    /// The kind that a word names.
    #[tactic(auto, unfolding(crate::specs::Commands::kind_of))]
    pub fn of(word: &str) -> Option<Kind>
        ensures { result ≡ kind_of word.now }
    {
        match word {
            "process" => Some(Kind::Process),
            "ranks" => Some(Kind::Ranks),
            "certify" => Some(Kind::Certify),
            "check" => Some(Kind::Check),
            "sample" => Some(Kind::Sample),
            "test" => Some(Kind::Test),
            "predict" => Some(Kind::Predict),
            "path" => Some(Kind::Path),
            _ => None,
        }
    }

    /// Whether the range of the job is one of lambda, as a path's is.
    pub fn is_over_lambda(self) -> bool
        ensures { result ≡ is_over_lambda self }
    {
        matches!(self, Kind::Path)
    }
}

// The names of the options that must stand, and of those that may.
static FIT_REQUIRED: [&str; 3] = ["formula", "lo", "hi"];

static FIT_OPTIONAL: [&str; 5] = ["weights", "contrasts", "pivots", "crit", "rank-at"];

static RANKS_REQUIRED: [&str; 1] = ["formula"];

static MODEL_OPTIONAL: [&str; 3] = ["weights", "contrasts", "pivots"];

static TEST_REQUIRED: [&str; 2] = ["formula", "tested"];

static PATH_REQUIRED: [&str; 4] = ["formula", "tau", "lo", "hi"];

static SAMPLE_REQUIRED: [&str; 5] = ["number", "rows", "columns", "lo", "hi"];

static SAMPLE_OPTIONAL: [&str; 1] = ["pivots"];

fn option<'a>(alloc: Global, name: &'a str, required: bool) -> Arg<'a>
    ensures rule { rule_of result ≡ option_rule name.entry.now required }
    ensures local { result.global ≡ false }
{
    Arg::new(alloc, name)
        .long(name)
        .action(ArgAction::Set)
        .required(required)
}

fn with_options<'a>(
    alloc: Global,
    mut command: Command<'a>,
    names: &'a [&'a str],
    required: bool,
) -> Result<Command<'a>, AllocError>
    ensures { IfOk result (λ c. app_of c
        ≡ with_rules (app_of command.entry)
        (map (λ name. option_rule name.now required) names.entry.now)) }
{
    for name in names {
        command = command.arg(option(alloc, name, required))?;
    }
    Ok(command)
}

fn new_command<'a>(alloc: Global) -> Command<'a>
    ensures { app_of result ≡ command_of [] }
{
    Command::new(alloc, "quantreg").disable_help_flag(true)
}

pub(crate) fn command<'a>(alloc: Global, kind: Kind) -> Result<Command<'a>, AllocError>
    ensures { IfOk result (λ c. app_of c ≡ command_of (options_of kind)) }
{
    let (required, optional) = match kind {
        Kind::Process | Kind::Certify => (FIT_REQUIRED.as_slice(), FIT_OPTIONAL.as_slice()),
        Kind::Ranks => (RANKS_REQUIRED.as_slice(), MODEL_OPTIONAL.as_slice()),
        Kind::Test => (TEST_REQUIRED.as_slice(), MODEL_OPTIONAL.as_slice()),
        Kind::Predict => (FIT_REQUIRED.as_slice(), MODEL_OPTIONAL.as_slice()),
        Kind::Path => (PATH_REQUIRED.as_slice(), MODEL_OPTIONAL.as_slice()),
        Kind::Sample => (SAMPLE_REQUIRED.as_slice(), SAMPLE_OPTIONAL.as_slice()),
        Kind::Check => return Ok(new_command(alloc)),
    };
    let command = with_options(alloc, new_command(alloc), required, true)?;
    with_options(alloc, command, optional, false)
}
