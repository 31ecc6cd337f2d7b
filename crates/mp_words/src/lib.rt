//! The words of a command line, and the command that they are.
//!
//! It promises that `read_command` answers the command of the words, defaults filled in, or that they are none (`Spells` and
//! `IsCommandLine` of `specs/Commands`, over `IsLine` of `specs/CommandLines`). The words are checked here, and then `clap`
//! reads them as one simple command. The table of modes and their options is `modes` in the code and `specs/Modes` among
//! the definitions: a further mode is a line of each, and a function in `asked` that reads its values; a further option is
//! one line more of `parsed`. It stands on `mp_logic`, on `mp_text` for numbers, and on `mp_wcnf` and `mp_map` for the forms
//! of the outputs.
#![tactic(auto)]

mod asked;
mod command;
mod laws;
mod lines;
mod modes;
mod parsed;
mod values;
mod words;

pub use command::{
    Command, CommandError, Evaluate, MapVersion, Preprocess, Reconstruct, Upgrade, Workload,
    read_command,
};
pub use laws::commands_are_one;
pub use words::Words;
