ghost use Rattle.std.specs.Prelude.{◌≡◌};
ghost use Rattle.mp_modes.specs.Refusals.{exit_status};

use mp_engine::Done;

/// How a run of the program ends; the number is the program's exit status.
#[derive(Clone, Copy, Debug, PartialEq, Eq)]
pub enum Status {
    /// all inputs were read to their end and all texts were written whole
    Ok = 0,
    NoMemory = 1,
    /// the words spell no command
    Usage = 2,
    /// an input could not be opened or read
    ReadFault = 3,
    /// a text could not be written; each output holds a front of its text
    WriteFault = 4,
    /// the instance is outside the grammar of WCNF
    BadInstance = 5,
    /// the instance passes a limit
    Limit = 6,
    /// the map is outside its grammar
    BadMap = 7,
    /// the solution is outside its grammar, or tells no values where there must be some
    BadSolution = 8,
    /// a hard clause of the original instance is false under the values
    NotModel = 9,
    /// the value of `--techniques` is no script
    BadScript = 10,
    /// an input is longer than 4,294,967,295 bytes
    TooLong = 11,
}

/// What the top call answers.
#[derive(Debug, Drop)]
pub struct Outcome {
    pub status: Status,
    /// How many host calls of this call answered `Failed`: none at `Ok`; one at `WriteFault`; else one for a fault in
    /// reading, and one where the line of the refusal could not be written.
    pub faults_seen: u64,
    /// What the run of the script left, exactly where there was one and all texts were built: at `Ok` and `WriteFault` of
    /// the modes that run a script.
    pub done: Option<Done>,
}

impl Status {
    /// The exit status of the program.
    pub fn number(self) -> u8
        ensures { result ≡ exit_status self }
    {
        self as u8
    }
}
