//! The top call: all that the program does, over any host.
ghost use Rattle.std.specs.Prelude.{◌≡◌, ◌≤◌, IfOk, IfErr, IsErrOf, List, ℕ};
ghost use Rattle.mp_host.specs.World.{Rose};
ghost use Rattle.mp_script.specs.Grammar.{IsScriptOf};
ghost use Rattle.mp_engine.specs.Stores.{CanRun};
ghost use Rattle.mp_words.specs.Commands.{IsCommandLine, Request, Spells, request_of};
ghost use Rattle.mp_modes.specs.Commands.{Answers, Bars, EndsUnspelled, HasFewTasks, PreparesRequest, StopsRequest, refused_script, refused_words};
ghost use Rattle.mp_modes.specs.Completeness.{HasNoFault, IsOkOrWant, IsSound};
ghost use Rattle.mp_modes.specs.Running.{IsCounted, IsSeen};
ghost use Rattle.mp_modes.specs.Traces.{outside_of};

use crate::evaluate::evaluate_file;
use crate::outputs::{Outputs, refuse, write_outputs};
use crate::preprocess::preprocess_file;
use crate::reconstruct::reconstruct_file;
use crate::refusal::{Refusal, TextRefusal};
use crate::status::{Outcome, Status};
use crate::upgrade::upgrade_file;
use crate::workload::workload_run;
use mp_engine::scripts_can_run;
use mp_host::Host;
use mp_script::{Script, ScriptError, parse};
use mp_words::{Command, CommandError, Words, read_command};
use std::alloc::Global;

/// Does what the words say, and answers how it ended.
///
/// Techniques that are no script are refused before any file is asked for (`Answers`).
/// Else, where the words are the command of a mode, the run reads the inputs of that mode in their order, stops at the first
/// one that is at fault, and else does steps that are right for their texts, in order, until one fails (`Ends`, with the
/// modes in `OfMode`). `Usage` comes exactly where the words are no command, unless memory is wanting; then the host is asked
/// for nothing but to write the line. Want of memory can come at any point. A refusal's line goes to the log, whole unless
/// writing it fails, which changes nothing of the status. `faults_seen` is how many host calls answered `Failed`.
pub fn maxpre<H: Host>(alloc: Global, words: &Words, host: &mut H) -> Outcome
    ensures command { (request : Request) → Spells words.now request
        → Answers request (outside_of H.world H.asked H.read_faults H.write_faults host.old) (outside_of H.world H.asked H.read_faults H.write_faults host.new) result }
    ensures usage { (IsCommandLine words.now → ⊥)
        → EndsUnspelled (outside_of H.world H.asked H.read_faults H.write_faults host.old) (outside_of H.world H.asked H.read_faults H.write_faults host.new) result }
    ensures counted { IsCounted (outside_of H.world H.asked H.read_faults H.write_faults host.old) (outside_of H.world H.asked H.read_faults H.write_faults host.new) result }
    ensures seen { IsSeen result.status result.faults_seen }
    ensures complete { (request : Request) → Spells words.now request → IsSound (H.world host.old) request → HasNoFault (outside_of H.world H.asked H.read_faults H.write_faults host.old) (outside_of H.world H.asked H.read_faults H.write_faults host.new)
        → IsOkOrWant result.status }
{
    let command = match read_command(alloc, words) {
        Ok(command) => command,
        Err(error) => return refuse(alloc, unspelled(error), host),
    };
    let outputs = match prepare(alloc, command, host) {
        Ok(outputs) => outputs,
        Err(refusal) => return refuse(alloc, refusal, host),
    };
    match write_outputs(&outputs, host) {
        Ok(()) => Outcome {
            status: Status::Ok,
            faults_seen: 0,
            done: outputs.done,
        },
        Err(_fault) => Outcome {
            status: Status::WriteFault,
            faults_seen: 1,
            done: outputs.done,
        },
    }
}

// Reads the inputs of a command, and builds all texts that it writes.
fn prepare<H: Host>(alloc: Global, command: Command, host: &mut H) -> Result<Outputs, Refusal>
    requires { HasFewTasks (request_of command) }
    ensures prepared { IfOk result (PreparesRequest (request_of command) (outside_of H.world H.asked H.read_faults H.write_faults host.old) (outside_of H.world H.asked H.read_faults H.write_faults host.new)) }
    ensures stopped { IfErr result (StopsRequest (request_of command) (outside_of H.world H.asked H.read_faults H.write_faults host.old) (outside_of H.world H.asked H.read_faults H.write_faults host.new)) }
    ensures fault { IsErrOf result Refusal.ReadFault → Rose (H.read_faults host.old) (H.read_faults host.new) }
    ensures later { H.read_faults host.old ≤ H.read_faults host.new }
    ensures writes { H.write_faults host.new ≡ H.write_faults host.old }
{
    match command {
        Command::Preprocess(asked) => {
            let script = match script_of(alloc, asked.techniques.as_str()) {
                Ok(script) => script,
                Err(refusal) => return Err(refusal),
            };
            preprocess_file(alloc, asked, &script, host)
        }
        Command::Reconstruct(asked) => reconstruct_file(alloc, asked, host),
        Command::Evaluate(asked) => evaluate_file(alloc, asked, host),
        Command::Workload(asked) => {
            let script = match script_of(alloc, asked.techniques.as_str()) {
                Ok(script) => script,
                Err(refusal) => return Err(refusal),
            };
            workload_run(alloc, asked.tasks, &script, host)
        }
        Command::Upgrade(asked) => upgrade_file(alloc, asked, host),
    }
}

// The script of the techniques.
fn script_of(alloc: Global, techniques: &str) -> Result<Script, Refusal>
    ensures script { IfOk result (IsScriptOf techniques.now) }
    ensures runs { IfOk result (λ script. CanRun script) }
    ensures barred { IfErr result (λ refusal. Bars techniques.now refusal) }
{
    let script = match parse(alloc, techniques) {
        Ok(script) => script,
        Err(error) => return Err(unscripted(error)),
    };
    // what the parser says of the script is all that a run needs
    scripts_can_run();
    Ok(script)
}

// The refusal of words that were not read.
fn unspelled(error: CommandError) -> Refusal
    ensures { result ≡ refused_words error }
{
    match error {
        CommandError::Usage => Refusal::Usage,
        CommandError::NoMemory => Refusal::NoMemory,
    }
}

// The refusal of techniques that are no script.
fn unscripted(error: ScriptError) -> Refusal
    ensures { result ≡ refused_script error }
{
    match error {
        ScriptError::BadScript { place } => Refusal::Text(TextRefusal::Script {
            place: place as u64,
        }),
        ScriptError::NoMemory => Refusal::NoMemory,
    }
}
