//! Why the program refuses, and the line that it says then.
//!
//! A refusal of the text of an input or of the script is a variant of `TextRefusal`, with a line in each of its three tables. Its line on
//! the log is made out of its front and its number.
ghost use Rattle.std.specs.Prelude.{◌≡◌, [], ◌∷◌, ◌++◌, IfOk, IfSome, IfNone, codes, decimal};
ghost use Rattle.mp_modes.specs.Refusals.{HasFixedLine, faults_of, front_of, limit_of, limit_word, line_of, number_of, status_of, text_status};

use crate::limits::limits;
use crate::status::Status;
use mp_logic::NoMemory;
use mp_text::{Bytes, TextBuf};
use std::alloc::Global;

/// A limit that an input passes.
#[derive(Clone, Copy, Debug, PartialEq, Eq)]
pub enum Exceeded {
    /// the greatest variable of an input
    Variables,
    /// the greatest number of variables with labels
    Inner,
    Clauses,
    Literals,
    /// the sum of the weights of the soft clauses
    Weight,
}

impl Exceeded {
    // What stands before the limit in the line that says it.
    fn front(self) -> &'static [u8]
        ensures { result.now ≡ codes "maxpre: limit: " ++ (limit_word self ++ codes " ") }
    {
        match self {
            Exceeded::Variables => b"maxpre: limit: variables ",
            Exceeded::Inner => b"maxpre: limit: inner ",
            Exceeded::Clauses => b"maxpre: limit: clauses ",
            Exceeded::Literals => b"maxpre: limit: literals ",
            Exceeded::Weight => b"maxpre: limit: weight ",
        }
    }

    // The limit itself.
    fn limit(self) -> u128
        ensures { result ≡ limit_of self }
    {
        let limits = limits();
        match self {
            Exceeded::Variables => u128::from(limits.variables),
            Exceeded::Inner => u128::from(limits.inner),
            Exceeded::Clauses => u128::from(limits.clauses),
            Exceeded::Literals => u128::from(limits.literals),
            Exceeded::Weight => u128::from(limits.weight),
        }
    }
}

/// Why the text of an input or of the script is refused; lines and clauses count from 1, places from 0.
#[derive(Clone, Copy, Debug, PartialEq, Eq)]
pub enum TextRefusal {
    /// the instance is outside the grammar of WCNF
    Instance { line: u64 },
    /// the instance passes a limit of the program
    Limit { exceeded: Exceeded },
    /// the map is the spelling of no map
    Map { line: u64 },
    /// the solution is outside the grammar of solver output, or tells no values where there must be some
    Solution { line: u64 },
    /// the values of the solution make this hard clause of the original false, the first such one, from 1
    NotModel { clause: u128 },
    /// the value of `--techniques` is no script: it stops beginning one at this place, from 0
    Script { place: u64 },
}

impl TextRefusal {
    // The status with which the program ends.
    fn status(self) -> Status
        ensures { result ≡ text_status self }
    {
        match self {
            TextRefusal::Instance { .. } => Status::BadInstance,
            TextRefusal::Limit { .. } => Status::Limit,
            TextRefusal::Map { .. } => Status::BadMap,
            TextRefusal::Solution { .. } => Status::BadSolution,
            TextRefusal::NotModel { .. } => Status::NotModel,
            TextRefusal::Script { .. } => Status::BadScript,
        }
    }

    // What the line says before its number.
    fn front(self) -> &'static [u8]
        ensures { result.now ≡ codes "maxpre: " ++ front_of self }
    {
        match self {
            TextRefusal::Instance { .. } => b"maxpre: instance: line ",
            TextRefusal::Limit { exceeded } => exceeded.front(),
            TextRefusal::Map { .. } => b"maxpre: map: line ",
            TextRefusal::Solution { .. } => b"maxpre: solution: line ",
            TextRefusal::NotModel { .. } => b"maxpre: not a model: hard clause ",
            TextRefusal::Script { .. } => b"maxpre: script: byte ",
        }
    }

    // The number that the line says.
    fn number(self) -> u128
        ensures { result ≡ number_of self }
    {
        match self {
            TextRefusal::Instance { line } => u128::from(line),
            TextRefusal::Limit { exceeded } => exceeded.limit(),
            TextRefusal::Map { line } => u128::from(line),
            TextRefusal::Solution { line } => u128::from(line),
            TextRefusal::NotModel { clause } => clause,
            TextRefusal::Script { place } => u128::from(place),
        }
    }

    /// The line that the program says.
    pub fn line(self, alloc: Global) -> Result<Bytes, NoMemory>
        ensures { IfOk result (λ line. line ≡ line_of (Refusal.Text self)) }
    {
        let mut line = TextBuf::new(alloc);
        line.word(self.front())?;
        line.number(self.number())?;
        line.word(b"\n")?;
        Ok(line.into_bytes())
    }
}

/// Why a run ended before its texts were written.
#[derive(Clone, Copy, Debug, PartialEq, Eq)]
pub enum Refusal {
    NoMemory,
    /// the words spell no command
    Usage,
    /// an input could not be opened or read
    ReadFault,
    /// an input is longer than 4,294,967,295 bytes
    TooLong,
    /// the text of an input, or of the script, is at fault
    Text(TextRefusal),
}

impl From<NoMemory> for Refusal {
    ghost use Rattle.std.specs.Prelude.{◌≡◌};
    ghost use Rattle.mp_modes.specs.declared.refusal.Refusal.TheVariants as refusals;

    ghost from_gives = { λ _ refusal. refusal ≡ refusals.NoMemory };

    fn from(_: NoMemory) -> Refusal {
        Refusal::NoMemory
    }
}

impl Refusal {
    /// The status with which the program ends.
    pub fn status(self) -> Status
        ensures { result ≡ status_of self }
    {
        match self {
            Refusal::NoMemory => Status::NoMemory,
            Refusal::Usage => Status::Usage,
            Refusal::ReadFault => Status::ReadFault,
            Refusal::TooLong => Status::TooLong,
            Refusal::Text(refusal) => refusal.status(),
        }
    }

    /// How many host calls failed on the way to this refusal.
    pub fn faults(self) -> u64
        ensures { result ≡ faults_of self }
    {
        match self {
            Refusal::ReadFault => 1,
            _ => 0,
        }
    }

    /// The refusal of a text, if it is one.
    pub fn text(self) -> Option<TextRefusal>
        ensures some { IfSome result (λ refusal. self ≡ Refusal.Text refusal) }
        ensures none { IfNone result (HasFixedLine self) }
    {
        match self {
            Refusal::Text(refusal) => Some(refusal),
            _ => None,
        }
    }
}

/// The line of a refusal that says no number.
pub fn fixed_line(refusal: Refusal) -> &'static [u8]
    requires { HasFixedLine refusal }
    ensures { result.now ≡ line_of refusal }
{
    match refusal {
        Refusal::Usage => b"maxpre: usage: maxpre MODE OPERAND [--NAME=VALUE]\n",
        Refusal::ReadFault => b"maxpre: read fault\n",
        Refusal::TooLong => b"maxpre: input too long\n",
        _ => b"maxpre: out of memory\n",
    }
}
