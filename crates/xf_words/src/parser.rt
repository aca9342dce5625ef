//! What clap finds in the words.
ghost use Rattle.std.specs.Prelude.{◌≡◌, List, map, option_map, string_bytes};
ghost use Rattle.std.specs.List.{list_any};
ghost use Rattle.clap.specs.Matches.{found_of};
ghost use Rattle.clap.specs.Walk.{first_of, rows_of};
ghost use Rattle.clap.specs.Simple.{app_of};
ghost use Rattle.xf_words.specs.Commands.{CommandRow};
ghost use Rattle.xf_words.specs.Applications.{HasCommands, Parses, is_stray as is_stray_word};

use clap::error::ErrorKind;
use clap::{ArgMatches, Command};
use xf_types::NoMemory;

/// No command has the word: it begins with a hyphen and isn't `--` with something after it. clap would take some of these,
/// as `--` after the options.
fn is_stray(word: &str) -> bool
    ensures { result ≡ is_stray_word word.now }
{
    match word.as_bytes() {
        [b'-', b'-', _, ..] => false,
        [b'-', ..] => true,
        _ => false,
    }
}

fn has_stray(words: &[String]) -> bool
    ensures { result ≡ list_any is_stray_word (map string_bytes words.now) }
{
    for word in words {
        if is_stray(word.as_str()) {
            return true;
        }
    }
    false
}

/// What clap finds in the words, and None where they are no command.
pub fn parse<'a>(
    command: Command<'a>,
    words: &'a [String],
) -> Result<Option<ArgMatches<'a>>, NoMemory>
    ensures { (rows : List CommandRow) → HasCommands rows (app_of command.entry)
        → Parses rows (map string_bytes words.now) result }
{
    if has_stray(words) {
        return Ok(None);
    }
    match command.try_get_matches_from(words) {
        Ok(matches) => Ok(Some(matches)),
        Err(error) => match error.kind() {
            ErrorKind::OutOfMemory => Err(NoMemory),
            _ => Ok(None),
        },
    }
}

/// The value that an option was given.
pub fn text_of<'a>(matches: &ArgMatches<'a>, name: &str) -> Option<&'a str>
    ensures { option_map (λ s. s.now) result ≡ first_of name.now (rows_of (found_of matches.now)) }
{
    matches.get_str(name)
}
