//! What clap is given: the program with its commands and their options.
ghost use Rattle.std.specs.Prelude.{◌≡◌, None, IfOk, [], true, false};
ghost use Rattle.clap.specs.Walk.{rule_of};
ghost use Rattle.clap.specs.Simple.{app_of};
ghost use Rattle.xf_words.specs.Commands.{command_rows, gen_row};
ghost use Rattle.xf_words.specs.Applications.{HasCommands, IsShaped, app_given, rule_given, shape_given};

use clap::{Arg, Command};
use std::alloc::{AllocError, Global};

/// An option with a value.
fn valued<'a>(alloc: Global, name: &'a str, required: bool) -> Arg<'a>
    ensures rule { rule_of result
        ≡ rule_given (record { name = name.entry.now; has_value = true; is_required = required }) }
    ensures local { result.global ≡ false }
{
    Arg::new(alloc, name).long(name).required(required)
}

/// A command that has no options, or none yet.
fn bare<'a>(alloc: Global, name: &'a str) -> Command<'a>
    ensures { IsShaped result (shape_given (record { name = name.entry.now; options = []; asked = λ uses. None })) }
{
    Command::new(alloc, name)
}

fn gen_command<'a>(alloc: Global) -> Result<Command<'a>, AllocError>
    ensures { IfOk result (λ command. IsShaped command (shape_given gen_row)) }
{
    let command = bare(alloc, "gen").arg(valued(alloc, "seed", true))?;
    Ok(command)
}

/// The program with no command yet. Its name isn't among the words, and clap adds no help of its own.
fn program<'a>(alloc: Global) -> Command<'a>
    ensures { app_of result ≡ app_given [] }
{
    Command::new(alloc, "xfrm")
        .no_binary_name(true)
        .disable_help_flag(true)
        .disable_help_subcommand(true)
        .subcommand_required(true)
}

/// The program with its commands.
pub fn program_with_commands<'a>(alloc: Global) -> Result<Command<'a>, AllocError>
    ensures { IfOk result (λ command. HasCommands command_rows (app_of command)) }
{
    let generate = gen_command(alloc)?;
    let command = program(alloc).subcommand(bare(alloc, "one"))?;
    let command = command.subcommand(bare(alloc, "check"))?;
    let command = command.subcommand(generate)?;
    Ok(command)
}
