//! Equivalent literals of a clause store.
//!
//! `components` numbers the literals that reach each other by clauses of two literals (`specs/Implications`). `equivalences`
//! replaces them by the first of each class. It promises `run` and `answer`, the clauses of every technique
//! (`specs/Techniques` of `mp_store`), with its own part in `specs/Equivalences`; what a turn does is in
//! `specs/Substitutions`, and why it keeps in `specs/Substituting`. It stands on `mp_logic`, `mp_store`, `mp_turns` and
//! `t_equiv_graph`.
#![tactic(auto)]

mod images;
mod laws;
mod numbering;
mod pooling;
mod replacing;
mod substitution;

pub use laws::substituting_all_keeps;
pub use numbering::{Numbers, components};
pub use substitution::equivalences;
