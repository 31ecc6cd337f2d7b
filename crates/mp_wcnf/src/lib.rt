//! Reading and writing WCNF, in the form with a `p wcnf` line and in the form with `h` for hard clauses. It stands on
//! `mp_logic`, `mp_text` and `thiserror`.
//!
//! `read` answers the instance that a text denotes (`specs/Grammar`, `specs/Meaning`) where it is within the limits
//! (clauses `found`, `accepts`), and otherwise the refusal of the first token at fault (`specs/Refusals`; clauses
//! `refused`, `refuses`). `one_meaning` says that each text has exactly one of the two. `write` answers the text of
//! `specs/Writing` (clause `text`), which denotes the instance again (clause `denotes`).
#![tactic(auto)]

mod errors;
mod laws;
mod reader;
mod reading;
mod writer;

pub use errors::ReadError;
pub use laws::one_meaning;
pub use reading::read;
pub use writer::{Form, write};
