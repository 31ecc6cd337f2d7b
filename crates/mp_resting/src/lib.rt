//! What a technique remembers of a store in which no candidate of it admitted a change, so that a later run can pass over
//! those that nothing has touched since.
//!
//! `Seen` holds which ids there were, and how many clauses each literal had. Ids keep their clauses for good, so a list of
//! clauses that has as many of the old ids as then has all of them (`HasKept` of `specs/Resting`), and one without a newer id
//! has gained none. `Kept` has a mark for each literal that has kept its clauses, `Touched` one for each clause that a run has to look at. They stand on `mp_logic`, `mp_clauses` and `mp_store`.
#![tactic(auto)]

mod kept;
mod seen;
mod touched;

pub use kept::Kept;
pub use seen::{Seen, below};
pub use touched::Touched;
