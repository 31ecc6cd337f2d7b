//! Reading the text of an instance within the limits of the program.
ghost use Rattle.std.specs.Prelude.{◌≡◌, IfOk, IfErr};
ghost use Rattle.mp_modes.specs.Instances.{IsReadable, IsReadingFault, IsWantOr, refused_reading};

use crate::limits::limits;
use crate::refusal::{Exceeded, Refusal, TextRefusal};
use mp_logic::Instance;
use mp_text::Bytes;
use mp_wcnf::{ReadError, read};
use std::alloc::Global;

/// The instance that a text denotes. The text is let go of as soon as it is read.
pub fn read_instance(alloc: Global, text: Bytes) -> Result<Instance, Refusal>
    ensures found { IfOk result (IsReadable text) }
    ensures refused { IfErr result (IsWantOr (IsReadingFault text)) }
{
    match read(alloc, text.items(), &limits()) {
        Ok(instance) => Ok(instance),
        Err(error) => Err(refusal_of(error)),
    }
}

fn refusal_of(error: ReadError) -> Refusal
    ensures { result ≡ refused_reading error }
{
    match error {
        ReadError::Syntax { line } => Refusal::Text(TextRefusal::Instance { line }),
        ReadError::TooManyVariables { .. } => past(Exceeded::Variables),
        ReadError::TooManyClauses => past(Exceeded::Clauses),
        ReadError::TooManyLiterals => past(Exceeded::Literals),
        ReadError::TooHeavy { .. } => past(Exceeded::Weight),
        ReadError::NoMemory => Refusal::NoMemory,
    }
}

/// The refusal of an instance that passes a limit.
pub fn past(exceeded: Exceeded) -> Refusal
    ensures { result ≡ Refusal.Text (TextRefusal.Limit exceeded) }
{
    Refusal::Text(TextRefusal::Limit { exceeded })
}
