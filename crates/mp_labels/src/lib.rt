//! The label view of an instance and the written form of a labelled state.
//!
//! `label` puts an instance into normal form and replaces its soft clauses by labels and cost literals; `unlabel`
//! writes a labelled state as an instance under consecutive variables. Promised: the exact state (`view_is`) and form
//! (`form`), and that both keep models and costs both ways (`keeps`, `presents`). It stands on mp_logic, indexmap and
//! thiserror; its definitions are in `specs/LabelView` and `specs/UnitForm`.
#![tactic(auto)]

mod charges;
mod draft;
mod keyed;
mod label_view;
mod labelled;
mod names;
pub mod renumbering;
mod unit_form;
mod written;

pub use label_view::{LabelError, label};
pub use labelled::Labelled;
pub use unit_form::unlabel;
pub use written::Written;
