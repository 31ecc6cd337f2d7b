//! Blocked clause elimination on a clause store.
//!
//! `blocked` drops clauses that are blocked on a literal without cost. It promises `run` and `answer`, the clauses of every
//! technique (`specs/Techniques` of `mp_store`), with its own part in `specs/BlockedClauses`; `ids`, that what is left keeps
//! its ids; and `turns`, that no more clauses go than the budget has turns. `blocked_again` promises the same, and passes over
//! what nothing touched since an earlier run. It stands on `mp_logic`, `mp_store`, `mp_turns` and `mp_resting`.
#![tactic(auto)]

mod elimination;
mod stops;
mod touched;

pub use elimination::{blocked, blocked_again};
