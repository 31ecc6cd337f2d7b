//! A clause-learning solver under assumptions, whose verdicts are proved.
//!
//! `solve` answers a model, a core of the assumptions, or the clauses that it learnt within a budget; its clause is
//! `IsRightVerdict` (`specs/Verdicts`). What it keeps while it searches is `IsSearching` (`specs/Searching`): the trail
//! (`specs/Trails`, `specs/History`), two watched literals in each clause (`specs/Watching`), and what is learnt from a
//! conflict (`specs/Conflicts`, over `specs/Learning` of `mp_logic`). It stands on `mp_logic`.
#![tactic(auto)]

mod backjump;
mod conflicts;
mod decisions;
mod order;
mod places;
mod propagation;
mod query;
mod search;
mod trail;
mod watches;

pub use query::{Query, Verdict};
pub use search::solve;
