//! Subsumption and self-subsuming resolution on a clause store.
//!
//! `subsume` drops clauses that have all literals of another, `strengthen` takes out of clauses a literal that resolution
//! with another clause rules out. Both promise `run` and `answer`, the clauses of every technique (`specs/Techniques` of
//! `mp_store`), with their own parts in `specs/Subsumption` and `specs/Strengthening`. `subsume_again` and
//! `strengthen_again` do the same where a run before left nothing to do among the clauses that there were (`specs/Resting` of
//! `mp_resting`), and pass these over. They stand on `mp_logic`, `mp_store`, `mp_turns` and `mp_resting`.
#![tactic(auto)]

mod containment;
mod filter;
mod near;
mod resting;
mod strengthening;
mod subsumption;

pub use strengthening::{strengthen, strengthen_again};
pub use subsumption::{subsume, subsume_again};
