//! Probing by unit propagation, on a clause store.
//!
//! `failed` fixes the negation of each literal whose propagation ends in a conflict, and `pairs` adds the clause of two cost
//! literals where one follows from the negation of the other. They promise `run` and `answer`, the clauses of every technique
//! (`specs/Techniques` of `mp_store`), with their own parts in `specs/Failed` and `specs/Pairs`. Both work over one list of
//! literals that unit propagation makes true, which is made once a call and kept up over the call's own rewrites. They stand
//! on `mp_logic`, `mp_clauses`, `mp_store` and `mp_turns`.
#![tactic(auto)]

mod candidates;
mod failing;
mod known;
mod labels;
mod pairing;
mod partners;
mod propagation;
mod root;
mod trail;
mod units;

pub use failing::failed;
pub use pairing::pairs;
