ghost use Rattle.std.specs.Prelude.{◌≡◌};
ghost use Rattle.mp_map.specs.declared.solutions.SolutionError.TheVariants.{NoMemory as OutOfMemory};

use mp_logic::{Assignment, NoMemory};
use thiserror::Error;

/// What a solver says that it found.
#[derive(Clone, Copy, Debug, PartialEq, Eq)]
pub enum Answer {
    Optimum,
    Satisfiable,
    Unsatisfiable,
    Unknown,
}

/// A solver's answer, and the value of each variable of the written instance, where it gave values.
#[derive(Debug, Drop)]
pub struct Solution {
    pub answer: Answer,
    pub values: Option<Assignment>,
}

/// How values are written: one byte `0` or `1` for each variable, or the literals that are true.
#[derive(Clone, Copy, Debug, PartialEq, Eq)]
pub enum Values {
    Bits,
    Literals,
}

/// Why a text is no solution.
#[derive(Clone, Copy, Debug, PartialEq, Eq, Error)]
pub enum SolutionError {
    /// The lowest line at fault, from 1. Where only the values are missing, it is the line of the last byte (1 for the
    /// empty text).
    #[error("line {line} of the solution is at fault")]
    BadSolution { line: u64 },
    #[error("out of memory")]
    NoMemory,
}

impl From<NoMemory> for SolutionError {
    ghost from_gives = { λ _ e. e ≡ OutOfMemory };

    fn from(_: NoMemory) -> SolutionError {
        SolutionError::NoMemory
    }
}
