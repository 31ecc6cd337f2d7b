//! The program `maxpre`: its command line, files and outputs, handed to the top call of `mp_modes`.
//!
//! All that is promised of what it writes stands as clauses of `mp_modes::top::maxpre`, the one call that it makes.
#![tactic(auto)]

ghost use Rattle.std.specs.Prelude.{◌≡◌};
ghost use Rattle.std.specs.Process.{exit_status};
ghost use Rattle.mp_modes.specs.Refusals as refusals;

use mp_host::RealHost;
use mp_modes::status::Status;
use mp_modes::{Words, top};
use std::io::ErrorKind;
use std::process::ExitCode;
use std::{env, mem};

// The exit code of a status.
fn exit_code(status: Status) -> ExitCode
    ensures { exit_status result ≡ refusals.exit_status status }
{
    ExitCode::from(status.number())
}

// A word that isn't UTF-8 is wrong usage; all words fail together, so the kind of the error tells it from want of memory.
fn main(rt: HostRuntime) -> ExitCode {
    let alloc = rt.alloc();
    let mut words = Words::new(alloc);
    let args = match env::args(&rt) {
        Ok(args) => args,
        Err(error) if error.kind() == ErrorKind::OutOfMemory => {
            return exit_code(Status::NoMemory);
        }
        Err(_) => return exit_code(Status::Usage),
    };
    for word in args.skip(1) {
        if words.push(word.as_str()).is_err() {
            return exit_code(Status::NoMemory);
        }
    }
    let mut host = RealHost::new(rt);
    let outcome = top::maxpre(alloc, &words, &mut host);
    let status = outcome.status;
    // what the run left goes back to the system with the process, at once and not block by block
    mem::forget(outcome);
    exit_code(status)
}
