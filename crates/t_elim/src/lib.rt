//! Bounded variable elimination on a clause store.
//!
//! `eliminate` resolves variables without cost away where this takes no more clauses than it makes. It promises `run` and
//! `answer`, the clauses of every technique (`specs/Techniques` of `mp_store`), with its own part in `specs/Eliminating`;
//! what a turn does is in `specs/Resolved`. `eliminate_again` does the same, and passes over what stayed since an earlier run
//! (`specs/Stayed`). It stands on `mp_logic`, `mp_store`, `mp_turns` and `mp_resting`.
#![tactic(auto)]

mod candidates;
mod counting;
mod elimination;
mod neighbours;
mod repairing;
mod resolving;
mod untouched;

pub use elimination::{eliminate, eliminate_again};
