//! What clap makes of the words of one command.
ghost use Rattle.std.specs.Prelude.{◌≡◌, true, map, string_bytes, option_map};
ghost use Rattle.clap.specs.Words.{app_of, found_of, is_simple, is_simple_and_free, rows_of};
ghost use Rattle.chex_words.specs.Taken as spec;
ghost use Rattle.chex_words.specs.Verdict.{IsReadBy};

use crate::WordsFault;
use clap::error::ErrorKind;
use clap::{ArgMatches, Command};
use std::alloc::Global;

/// The words after the command's name, as clap takes them.
pub fn matched<'a>(command: Command<'a>, words: &'a [String]) -> Result<ArgMatches<'a>, WordsFault>
    requires simple { is_simple (app_of command) ≡ true }
    requires free { is_simple_and_free (app_of command) ≡ true }
    ensures { IsReadBy (λ m. rows_of (found_of m)) (spec.taken (app_of command.entry) (map string_bytes words.entry.now)) result }
{
    match command.try_get_matches_from(words) {
        Ok(matches) => Ok(matches),
        Err(error) => {
            let kind = error.kind();
            match kind {
                ErrorKind::OutOfMemory => Err(WordsFault::NoMemory),
                _ => Err(WordsFault::Usage),
            }
        }
    }
}

/// The text of an argument.
#[tactic(auto, using(crate::proofs::TakenLemmas::first_value_at))]
pub fn value<'a>(matches: &ArgMatches<'a>, id: &str) -> Option<&'a str>
    ensures { option_map (λ s. s.now) result ≡ spec.value_at id.now (rows_of (found_of matches.now)) }
{
    matches.get_str(id)
}

/// Whether a flag is given.
pub fn flag<'a>(matches: &ArgMatches<'a>, id: &str) -> bool
    ensures { result ≡ spec.flag_at id.now (rows_of (found_of matches.now)) }
{
    value(matches, id) == Some("true")
}
