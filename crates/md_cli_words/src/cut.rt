//! Cutting words into arguments by `clap`.
ghost use Rattle.std.specs.Prelude.{◌≡◌, IfOk, true, map, option_map, string_bytes};
ghost use Rattle.clap.specs.Words.{app_of, found_of, rows_of, first_of, is_simple_and_free};
ghost use Rattle.md_cli_words.specs.Forms.{arguments_of};

use clap::error::ErrorKind;
use clap::{ArgMatches, Command};
use md_num::NoMemory;

/// The arguments that a simple command finds in the words, if it takes them.
pub(crate) fn cut<'a>(
    command: Command<'a>,
    words: &'a [String],
) -> Result<Option<ArgMatches<'a>>, NoMemory>
    requires { is_simple_and_free (app_of command) ≡ true }
    ensures { IfOk result (λ cut. option_map (λ matches. rows_of (found_of matches)) cut ≡ arguments_of (app_of command.entry) (map string_bytes words.entry.now)) }
{
    match command.try_get_matches_from(words) {
        Ok(matches) => Ok(Some(matches)),
        Err(error) if error.kind() == ErrorKind::OutOfMemory => Err(NoMemory),
        Err(_) => Ok(None),
    }
}

/// The text of an argument.
pub(crate) fn text_of<'a>(matches: &ArgMatches<'a>, id: &str) -> Option<&'a str>
    ensures { option_map (λ text. text.now) result ≡ first_of id.now (rows_of (found_of matches.now)) }
{
    matches.get_str(id)
}
