//! Techniques on labels, the literals that cost: subsumed label elimination, by one other label and by a group.
//!
//! `covered` and `group_covered` make a label false for good where others may be paid for in its place. They promise `run`
//! and `answer`, the clauses of every technique (`specs/Techniques` of `mp_store`), with their own parts in `specs/Covers`
//! and `specs/Groups`; which labels are looked at again is in `specs/Lowering`. They stand on `mp_logic`, `mp_clauses`,
//! `mp_store` and `mp_turns`.
#![tactic(auto)]

mod candidates;
mod chosen;
mod covers;
mod groups;
mod lowering;

pub use covers::covered;
pub use groups::group_covered;
