//! Techniques on pairs of labels, the literals that cost: label matching and binary core removal, on a clause store.
//!
//! `matched` makes labels one that match, and `binary_cores` pays for one label of each binary core. Both promise `run` and
//! `answer`, the clauses of every technique (`specs/Techniques` of `mp_store`), with their own parts in `specs/Matching` and
//! `specs/Cores`. It stands on `mp_logic`, `mp_store` and `mp_turns`.
#![tactic(auto)]

mod core_partners;
mod cores;
mod costs;
mod free_partners;
mod joins;
mod match_partners;
mod matching;
mod near;
mod repairing;

pub use cores::binary_cores;
pub use matching::matched;
