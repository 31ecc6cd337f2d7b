//! The clause store: clauses by id with their occurrence lists, weights, and the repairs made so far. A `Rewrite` changes
//! it in two steps: `prepare` takes all the memory, and `apply` can't fail; `rewrite` is both at once.
//!
//! It promises that `apply` leaves `after` of `specs/Rewriting`, that each store meets `IsStore` of `specs/Soundness`, that
//! occurrence lists are exact, that clauses lie apart in an arena with a bound on dead literals (`mp_clauses`), that
//! `Rewrite::fixing` is `fixing_of` of `specs/Fixing` and keeps models and costs, and it has what all rewriting techniques
//! promise (`specs/Techniques`, `specs/Measures`). A store is seen as `Held` of `specs/Held`. It stands on `mp_logic`,
//! `mp_labels` and `mp_clauses`.
#![tactic(auto)]

mod clashing;
mod fixing;
mod laws;
mod literal_set;
mod literals;
mod queue;
mod ran;
mod repairing;
mod rewrite;
mod starting;
mod store;
mod turns;

pub use clashing::{clashes_with, signature_beside};
pub use laws::{
    counts_change, covering_is_smaller, fixing_keeps_store, payments_change, refuting_keeps,
    replaced_clauses, replaced_count, replaced_ids, replaced_sums, replacement_is_valid,
    replacing_is_smaller, replacing_leaves, same_counts, starting_keeps, sums_change,
    totals_change,
};
pub use literal_set::LiteralSet;
pub use mp_clauses::{ClauseId, Ids, place, signature, signature_bits, signature_of_part};
pub use queue::WorkQueue;
pub use ran::{Counts, Ending, Ran};
pub use repairing::repair_setting;
pub use rewrite::Rewrite;
pub use store::Store;
pub use turns::spend;
