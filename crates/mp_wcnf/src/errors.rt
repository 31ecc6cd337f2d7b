use mp_logic::NoMemory;
use thiserror::Error;

/// Why a text was refused. Lines count from 1.
#[derive(Clone, Copy, Debug, PartialEq, Eq, Error)]
pub enum ReadError {
    /// A token on this line can't stand at its place, a header isn't whole at the end of this line, or the text ends on
    /// this line inside a clause.
    #[error("line {line} can't be read")]
    Syntax { line: u64 },
    /// A variable, or `n` of the header, is above the limit.
    #[error("line {line} passes the limit of variables")]
    TooManyVariables { line: u64 },
    /// The text has more clauses than the limit.
    #[error("too many clauses")]
    TooManyClauses,
    /// The text has more literals than the limit.
    #[error("too many literals")]
    TooManyLiterals,
    /// With the weight on this line the soft clauses together weigh more than the limit.
    #[error("line {line} passes the limit of weights")]
    TooHeavy { line: u64 },
    /// Memory was refused.
    #[error("out of memory")]
    NoMemory,
}

impl From<NoMemory> for ReadError {
    ghost use Rattle.std.specs.Prelude.{◌≡◌};
    ghost use Rattle.mp_wcnf.specs.declared.errors.ReadError.TheVariants as errors;

    ghost from_gives = { λ _ e. e ≡ errors.NoMemory };

    fn from(_: NoMemory) -> ReadError {
        ReadError::NoMemory
    }
}
