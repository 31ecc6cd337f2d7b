//! What `clap` reads of words that are a command line.
ghost use Rattle.std.specs.Prelude.{◌≡◌, IfOk, IfErr, true, map, string_bytes};
ghost use Rattle.clap.specs.Words.{app_of, found_of, kind_of, matches_of, rows_of, takes};
ghost use Rattle.clap.specs.Simple.{with_rule};
ghost use Rattle.mp_words.specs.Parsed.{app, first_app, option_rule, with_option};

use clap::error::ErrorKind;
use clap::{Arg, ArgMatches, Command, Error};
use std::alloc::Global;

/// The command without options: a mode and its operand.
fn plain_command<'a>(alloc: Global) -> Result<Command<'a>, Error>
    ensures ok { IfOk result (λ command. app_of command ≡ first_app) }
    ensures err { IfErr result (λ e. kind_of e ≡ ErrorKind.OutOfMemory) }
{
    let mode = Arg::new(alloc, "mode").required(true);
    let operand = Arg::new(alloc, "operand").required(true);
    let command = Command::new(alloc, "maxpre")
        .no_binary_name(true)
        .disable_help_flag(true)
        .arg(mode)?
        .arg(operand)?;
    Ok(command)
}

/// With one option more.
fn with<'a>(alloc: Global, command: Command<'a>, name: &'a str) -> Result<Command<'a>, Error>
    ensures ok { IfOk result (λ r. app_of r ≡ with_option (app_of command.entry) name.entry.now) }
    ensures err { IfErr result (λ e. kind_of e ≡ ErrorKind.OutOfMemory) }
{
    let command = command.arg(Arg::new(alloc, name).long(name))?;
    Ok(command)
}

/// The command with the options of all modes. A further option is one more line.
fn command<'a>(alloc: Global) -> Result<Command<'a>, Error>
    ensures ok { IfOk result (λ command. app_of command ≡ app) }
    ensures err { IfErr result (λ e. kind_of e ≡ ErrorKind.OutOfMemory) }
{
    let command = plain_command(alloc)?;
    let command = with(alloc, command, "techniques")?;
    let command = with(alloc, command, "mapfile")?;
    let command = with(alloc, command, "form")?;
    let command = with(alloc, command, "merge")?;
    let command = with(alloc, command, "mapversion")?;
    let command = with(alloc, command, "original")?;
    let command = with(alloc, command, "values")?;
    let command = with(alloc, command, "solution")?;
    Ok(command)
}

/// What `clap` reads of the words.
pub fn parsed<'a>(alloc: Global, words: &'a [String]) -> Result<ArgMatches<'a>, Error>
    ensures ok { IfOk result (λ m. rows_of (found_of m) ≡ matches_of app (map string_bytes words.entry.now)) }
    ensures err { takes app (map string_bytes words.entry.now) ≡ true → IfErr result (λ e. kind_of e ≡ ErrorKind.OutOfMemory) }
{
    command(alloc)?.try_get_matches_from(words)
}
