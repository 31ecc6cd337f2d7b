//! Clauses by id and by literal, and weights by literal.
//!
//! A `ClauseTable` holds clauses in one list of literals, the arena, with the ids of the live ones by literal; a `CostTable`
//! holds weights. Both take the memory for a change first, so that the change itself can't fail. Contracts see them as
//! `Catalog` and `Prices` of `specs/Tables`: the live clause of each id (`specs/Slots`), where clauses lie (`specs/Arena`), and
//! the weight of each literal (`specs/Weighing`). `specs/Signatures` has what a clause's signature is. It stands on `mp_logic`.
#![tactic(auto)]

mod arena;
mod buckets;
mod clause_id;
mod clauses;
mod costs;
mod first_table;
mod laws;
mod links;
mod marks;
mod occurrences;
mod packing;
mod places;
mod rows;
mod signatures;
mod sizes;

pub use clause_id::{ClauseId, Ids};
pub use clauses::ClauseTable;
pub use costs::CostTable;
pub use laws::{signature_bits, signature_of_part};
pub use marks::widen_marks;
pub use places::place;
pub use signatures::signature;
pub use sizes::Size;
