//! The command that the words are.
ghost use Rattle.std.specs.Prelude.{◌≡◌, MatchResult};
ghost use Rattle.mp_words.specs.Commands.{IsFault, Spells, request_of};

use crate::asked::{read_evaluate, read_preprocess, read_reconstruct, read_upgrade, read_workload};
use crate::words::Words;
use mp_logic::NoMemory;
use mp_map::Values;
use mp_wcnf::Form;
use std::alloc::Global;

/// The versions that a map can be written in: with one entry for each repair, or with neighbours that set the same literals
/// joined into one entry.
#[derive(Clone, Copy, Debug, PartialEq, Eq)]
pub enum MapVersion {
    One,
    Two,
}

impl MapVersion {
    ghost use Rattle.std.specs.Prelude.{◌≡◌};
    ghost use Rattle.mp_words.specs.Commands.{version_number};

    /// The number of the version, 1 or 2.
    pub fn number(self) -> u32
        ensures { result ≡ version_number self }
    {
        match self {
            MapVersion::One => 1,
            MapVersion::Two => 2,
        }
    }
}

/// What `preprocess` is asked for: the instance file, the script of techniques, the file for the map, if one is to be
/// written, the form of the output, whether cost literals are merged into clauses, and the version of the map.
#[derive(Debug, Drop)]
pub struct Preprocess {
    pub file: String,
    pub techniques: String,
    pub map: Option<String>,
    pub form: Form,
    pub merge: bool,
    pub version: MapVersion,
}

/// What `reconstruct` is asked for: the solution file, the file of the map, the file of the original instance, if the cost in
/// it is to be told, and the form of the values.
#[derive(Debug, Drop)]
pub struct Reconstruct {
    pub file: String,
    pub map: String,
    pub original: Option<String>,
    pub form: Values,
}

/// What `evaluate` is asked for: the instance file, and the file of the solution.
#[derive(Debug, Drop)]
pub struct Evaluate {
    pub file: String,
    pub solution: String,
}

/// What `workload` is asked for: the number of tasks, from 0 to 1,000,000, and the script of techniques.
#[derive(Debug, Drop)]
pub struct Workload {
    pub tasks: u32,
    pub techniques: String,
}

/// What `upgrade` is asked for: the file of a map, and the file for the new one.
#[derive(Debug, Drop)]
pub struct Upgrade {
    pub file: String,
    pub map: String,
}

/// What the words ask for.
#[derive(Debug, Drop)]
pub enum Command {
    Preprocess(Preprocess),
    Reconstruct(Reconstruct),
    Evaluate(Evaluate),
    Workload(Workload),
    Upgrade(Upgrade),
}

/// Why words give no command.
#[derive(Clone, Copy, Debug, PartialEq, Eq)]
pub enum CommandError {
    /// They are none.
    Usage,
    /// Memory was refused.
    NoMemory,
}

impl From<NoMemory> for CommandError {
    ghost use Rattle.std.specs.Prelude.{◌≡◌};
    ghost use Rattle.mp_words.specs.declared.command.CommandError.TheVariants as errors;

    ghost from_gives = { λ _ e. e ≡ errors.NoMemory };

    fn from(_: NoMemory) -> CommandError {
        CommandError::NoMemory
    }
}

/// Reads the words as a command, with the defaults of the options that they leave out. `Usage` comes exactly where the words
/// are no command, but want of memory may come before it.
pub fn read_command(alloc: Global, words: &Words) -> Result<Command, CommandError>
    ensures { MatchResult result (λ command. Spells words.now (request_of command)) (IsFault words.now) }
{
    if let Some(command) = read_preprocess(alloc, words)? {
        return Ok(Command::Preprocess(command));
    }
    if let Some(command) = read_reconstruct(alloc, words)? {
        return Ok(Command::Reconstruct(command));
    }
    if let Some(command) = read_evaluate(alloc, words)? {
        return Ok(Command::Evaluate(command));
    }
    if let Some(command) = read_workload(alloc, words)? {
        return Ok(Command::Workload(command));
    }
    if let Some(command) = read_upgrade(alloc, words)? {
        return Ok(Command::Upgrade(command));
    }
    Err(CommandError::Usage)
}
