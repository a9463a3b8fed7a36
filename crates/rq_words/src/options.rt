//! The options that stand in the words, by name.
ghost use Rattle.std.specs.Prelude.{◌≡◌, ◌⊎◌, Some, None, MatchResult, map, option_map, string_bytes};
ghost use Rattle.clap.specs.Words.{first_of};
ghost use Rattle.rq_words.specs.Commands.{found_in};

use crate::WordFault;
use crate::command::{Kind, command};
use clap::ArgMatches;
use clap::error::ErrorKind;
use std::alloc::Global;
use std::marker::Model;

/// The options that stand in the words of a command, seen as the rows that `clap` finds.
#[derive(Drop)]
pub(crate) struct Options<'a> {
    matches: ArgMatches<'a>,
}

impl<'a> Model for Options<'a> {
    ghost use Rattle.std.specs.Prelude.{List as list};
    ghost use Rattle.clap.specs.Words.{Row, rows_of, found_of};

    ghost Value = { list Row };

    ghost view = { λ o. rows_of (found_of o.matches) };
}

impl<'a> Options<'a> {
    /// Reads the words of a command, the first of which is its job.
    pub fn read(alloc: Global, kind: Kind, words: &'a [String]) -> Result<Options<'a>, WordFault>
        ensures { MatchResult result
            (λ o. found_in kind (map string_bytes words.entry.now) ≡ Some o)
            (λ e. (e ≡ WordFault.OutOfMemory) ⊎ ((e ≡ WordFault.BadOption)
            × (found_in kind (map string_bytes words.entry.now) ≡ None))) }
    {
        let Ok(command) = command(alloc, kind) else {
            return Err(WordFault::OutOfMemory);
        };
        match command.try_get_matches_from(words) {
            Ok(matches) => Ok(Options { matches }),
            Err(e) => match e.kind() {
                ErrorKind::OutOfMemory => Err(WordFault::OutOfMemory),
                _ => Err(WordFault::BadOption),
            },
        }
    }

    /// The value of an option, if it was given.
    pub fn get(&self, name: &str) -> Option<&'a str>
        ensures { option_map (λ t. t.now) result ≡ first_of name.now self.now }
    {
        self.matches.get_str(name)
    }
}
