//! Made instances to try a script on, and the summary of such a run.
//!
//! `workload_instance` makes an instance of any number of tasks, each of which takes one of four slots, by a fixed
//! generator. Promised: that it is exactly the instance of `specs/Workload`, that it is within the limits of the program,
//! and that it has a hard model (`workloads_have_models`); `summary_text` is the text of `specs/SummaryText`. It stands on
//! mp_logic, mp_text and the label view of mp_labels.
#![tactic(auto)]

mod instance;
mod laws;
mod summary;

pub use instance::workload_instance;
pub use laws::workloads_have_models;
pub use summary::{Sizes, Summary, summary_text};
