//! From words to a command.
ghost use Rattle.std.specs.Prelude.{◌≡◌, ◌≤◌, Some, find, IfOk, IfSome, List, map, option_map, string_bytes};
ghost use Rattle.clap.specs.Matches.{found_of};
ghost use Rattle.clap.specs.Walk.{rows_of};
ghost use Rattle.clap.specs.Simple.{subcommand_rows_of};
ghost use Rattle.xf_words.specs.Uses.{Use};
ghost use Rattle.xf_words.specs.Commands.{CommandRow, IsInRange, command_of, command_rows, gen_asked, gen_options, is_called};
ghost use Rattle.xf_words.specs.Commands.{gen_by as gen_asked_by, number_of as number_given};
ghost use Rattle.xf_words.specs.Applications.{entries_of};

use crate::Command;
use crate::application::program_with_commands;
use crate::decimal::read_number;
use crate::parser::{parse, text_of};
use clap::ArgMatches;
use std::alloc::Global;
use xf_types::NoMemory;

/// The number of a value that was given, if it lies between the two bounds.
fn number_of(value: Option<&str>, low: u64, high: u64) -> Option<u64>
    ensures number { result ≡ number_given low high (option_map (λ s. s.now) value.entry) }
    ensures most { IfSome result (λ n. n ≤ high) }
{
    match value {
        Some(word) => read_number(word.as_bytes(), low, high),
        None => None,
    }
}

/// `gen`, by the value of `--seed`.
fn gen_by(seed: Option<&str>) -> Option<Command>
    ensures { result ≡ gen_asked_by (option_map (λ s. s.now) seed.entry) }
{
    let seed = number_of(seed, 0, u64::MAX)?;
    Some(Command::Gen { seed })
}

fn gen_from(found: &ArgMatches<'_>) -> Option<Command>
    ensures { (uses : List Use) → rows_of (found_of found.now) ≡ entries_of gen_options uses → result ≡ gen_asked uses }
{
    gen_by(text_of(found, "seed"))
}

/// The command of a name, by what clap found in the words after it.
fn by_name(name: &str, found: &ArgMatches<'_>) -> Option<Command>
    ensures { (row : CommandRow) → (uses : List Use) → find (is_called row.name) command_rows ≡ Some row
        → name.now ≡ row.name → rows_of (found_of found.now) ≡ entries_of row.options uses → result ≡ row.asked uses }
{
    match name.as_bytes() {
        b"one" => Some(Command::One),
        b"check" => Some(Command::Check),
        b"gen" => gen_from(found),
        _ => None,
    }
}

/// The command of what clap found in all words.
fn command_from(matches: &ArgMatches<'_>) -> Option<Command>
    ensures { (row : CommandRow) → (uses : List Use) → find (is_called row.name) command_rows ≡ Some row
        → subcommand_rows_of matches.now ≡ Some (row.name, entries_of row.options uses) → result ≡ row.asked uses }
{
    match matches.subcommand() {
        Some((name, found)) => by_name(name, found),
        None => None,
    }
}

/// The command that the words are, without the program's name, and None where they are none. Memory may be refused for
/// any words, also those that are no command.
pub fn read_command(alloc: Global, words: &[String]) -> Result<Option<Command>, NoMemory>
    ensures exactly { IfOk result (λ command. command ≡ command_of (map string_bytes words.now)) }
    ensures range { IfOk result (λ command. IfSome command IsInRange) }
{
    match program_with_commands(alloc) {
        Ok(command) => match parse(command, words)? {
            Some(matches) => Ok(command_from(&matches)),
            None => Ok(None),
        },
        Err(_) => Err(NoMemory),
    }
}
