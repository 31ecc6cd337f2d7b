//! One run of a case: what stands ready for it, and what it leaves.

use case_text::{Desks, Trouble};
use mp_logic::NoMemory;
use mp_modes::Words;
use mp_modes::status::Outcome;
use mp_modes::top::maxpre;
use mp_text::TextBuf;
use std::alloc::Global;

/// The words of a run and the desks with its files; only one of the desks is run over.
#[derive(Drop)]
pub struct Stage {
    words: Words,
    desks: Desks,
}

impl Stage {
    /// No words, and desks without files.
    pub fn new(alloc: Global) -> Stage {
        Stage {
            words: Words::new(alloc),
            desks: Desks::new(alloc),
        }
    }

    /// Takes what a line gives under its key: `word W`, or what the desks take.
    pub fn take(&mut self, alloc: Global, key: &str, given: &str) -> Result<(), Trouble> {
        if key == "word" {
            self.words.push(given)?;
            return Ok(());
        }
        self.desks.take(alloc, key, given)
    }

    /// Runs the words over the desk that is asked for, and prints how it ended and what the ports hold then.
    pub fn run(&mut self, alloc: Global, printed: &mut TextBuf) -> Result<(), NoMemory> {
        if self.desks.is_quiet {
            let outcome = maxpre(alloc, &self.words, &mut self.desks.quiet);
            return put_outcome(printed, outcome);
        }
        let outcome = maxpre(alloc, &self.words, &mut self.desks.telling);
        put_outcome(printed, outcome)?;
        self.desks.put_ports(printed)
    }
}

fn put_outcome(printed: &mut TextBuf, outcome: Outcome) -> Result<(), NoMemory> {
    printed.word(b"status ")?;
    printed.number(u128::from(outcome.status.number()))?;
    printed.word(b" faults ")?;
    printed.number(u128::from(outcome.faults_seen))?;
    printed.word(b"\n")
}
