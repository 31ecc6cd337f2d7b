//! The merged written form of a labelled state.
//!
//! `merge` writes a labelled state as an instance under consecutive variables, as `unlabel` of mp_labels does, but gives
//! a soft clause back to each label that stands in one hard clause alone: the clause loses the label and becomes soft.
//! Promised: the exact form (`form`), and that it keeps models and costs both ways (`presents`). It stands on mp_logic,
//! mp_labels and the places of literals in mp_clauses; its definitions are in `specs/MergedForm`.
#![tactic(auto)]

mod homes;
mod mergeable;
mod merged_form;
mod renumbering;
mod softs;

pub use merged_form::merge;
