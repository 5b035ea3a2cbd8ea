//! The options of a command as `clap` reads them. It reads words that are known to be options, so it can refuse them for want of memory alone.

ghost use Rattle.std.specs.Prelude.{◌≡◌, true, false, map, string_bytes, IfOk, IfErr};
ghost use Rattle.clap.specs.Words.{app_of, first_value, found_of, kind_of, rule_of};
ghost use Rattle.command_words.specs.Matches.{app, asked, HasRead};
ghost use Rattle.command_words.specs.Options.{are_options, number_by, takes_of, text_of};

use crate::options::{Name, Takes, number_by, takes_of, text_of};
use clap::error::ErrorKind;
use clap::{Arg, ArgAction, ArgMatches, Command, Error};
use std::alloc::{AllocError, Global};

/// An option, as an argument with its long name.
fn argument(alloc: Global, option: Name) -> Arg<'static>
    ensures rule { rule_of result ≡ asked option }
    ensures own { result.global ≡ false }
{
    let name = text_of(option);
    let action = match takes_of(option) {
        Takes::Number { .. } => ArgAction::Set,
        Takes::Nothing => ArgAction::SetTrue,
    };
    Arg::new(alloc, name).long(name).action(action)
}

/// A command with these options and no others.
fn command<'a>(alloc: Global, name: &'a str, options: &[Name]) -> Result<Command<'a>, AllocError>
    ensures { IfOk result (λ c. app_of c ≡ app name.entry.now (map asked options.now)) }
{
    let mut command = Command::new(alloc, name)
        .no_binary_name(true)
        .disable_help_flag(true)
        .disable_version_flag(true);
    for option in options {
        command = command.arg(argument(alloc, *option))?;
    }
    Ok(command)
}

/// What words are that are options of the command of that name.
pub(crate) fn read<'a>(
    alloc: Global,
    name: &'a str,
    options: &[Name],
    words: &'a [String],
) -> Result<ArgMatches<'a>, Error>
    requires { are_options options.now (map string_bytes words.now) ≡ true }
    ensures read { IfOk result (HasRead options.now (map string_bytes words.entry.now)) }
    ensures memory { IfErr result (λ e. kind_of e ≡ ErrorKind.OutOfMemory) }
{
    let command = command(alloc, name, options)?;
    command.try_get_matches_from(words)
}

/// The number of an option.
pub(crate) fn number(matches: &ArgMatches<'_>, option: Name) -> u32
    ensures { result ≡ number_by (takes_of option) (first_value (found_of matches.now) (text_of option)) }
{
    number_by(
        takes_of(option),
        matches.get_str(text_of(option)).map(str::as_bytes),
    )
}
