//! At-most-ones among labels, the literals that cost: labels of which each two are a clause already.
//!
//! `at_most_ones` pays for all but one of such labels for good, and gives a new label to the case that all are true. It
//! promises `run`, `turns` and `answer`, the clauses of every technique (`specs/Techniques` of `mp_store`), with its own part
//! in `specs/AtMostOnes`; the rewrite is in `specs/Joining`. It stands on `mp_logic`, `mp_clauses`, `mp_store` and `mp_turns`.
#![tactic(auto)]

mod at_most_one;
mod choosing;
mod joining;
mod labels;
mod partners;

pub use at_most_one::at_most_ones;
