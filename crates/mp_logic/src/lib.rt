//! Literals, clauses, weighted partial MaxSAT instances and assignments, with the definitions on which every claim of
//! the program rests: truth and cost (`specs/Truth`, `specs/Optimum`), repairs (`specs/Repairs`), labelled states and
//! rewrites that keep their models and costs (`specs/Keeping`), and instances that carry another's models and optimum
//! back (`specs/Carrying`). It stands on `std` and small vectors.
//!
//! It promises that `satisfies`, `first_false` and `cost` are those definitions, that `apply_repairs` is `repaired`,
//! and the laws of `laws`: keeping composes, and a view, a run that keeps and a form that presents make an instance
//! that carries.
#![tactic(auto)]

mod clauses;
mod instances;
mod laws;
mod limits;
mod lists;
mod lits;
mod normal;
mod repairs;
mod truth;

pub use clauses::Clause;
pub use instances::{Cost, Costs, Instance, Repair, Repairs, Soft, Softs, Weight};
pub use laws::{
    adding_keeps, at_most_ones_keep, bending_keeps, blocked_keeps, coring_keeps, dropping_keeps,
    eliminating_keeps, fixing_keeps, group_cover_bends, implied_keep, keeping_carries,
    keeping_is_reflexive, keeping_joins, lessons_are_implied, lessons_are_new, matching_keeps,
    optimum_comes_back, refutation_carries, repairing_keeps, reweighing_keeps, rising_is_normal,
    same_models_keep, same_set_keeps, substituting_keeps, subsumed_label_bends, unblocked_stays,
    unused_label_bends,
};
pub use limits::{Limits, WEIGHT_LIMIT};
pub use lists::{Copied, ListOf, NoMemory};
pub use lits::{Assignment, Clauses, Lit, Names};
pub use normal::{compare_clauses, is_normal, is_tautology, normalise};
pub use repairs::{apply_repair, apply_repairs};
pub use truth::{cost, first_false, holds, satisfies};
