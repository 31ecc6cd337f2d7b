//! The engine: it runs a technique script on a labelled state.
//!
//! It promises that what `run` answers is a run of the script (`IsDone` of `specs/Runs`, over `specs/Stages`), that the run
//! keeps models and costs with its repairs, and, by the laws of `laws`, what the closing word says: where a loop settled,
//! every letter of it has its end state in the last state at once. What each letter stands for is one line of `kind_of` of
//! `specs/Letters` and one arm of `run_letter`, and how its end state moves to a written form one line of
//! `proofs/Moved`. The techniques that ask a solver ask the oracle that the caller gives. It stands on `mp_logic`, `mp_labels`,
//! `mp_store`, `mp_script`, `core_solver` for the oracle's questions, and the crates of the techniques.
#![tactic(auto)]

mod done;
mod groups;
mod laws;
mod letters;
mod log;
mod loops;
mod rests;
mod running;
mod sequences;
mod stages;

pub use done::{Close, Done, StageEnding, StageLine, StageLines};
pub use laws::{
    bounds_are_reached, counts_move, end_states_move, last_letter_has_end_state, last_line_is_last,
    lines_have_stages, log_tells_close, no_group_is_single, refuted_is_exact, runs_are_courses,
    runs_keep, scripts_can_run, settled_is_standing, settled_loops_have_end_states,
    single_is_exact, unsettled_after_rounds, unsettled_is_standing,
};
pub use log::log_text;
pub use running::{run, run_from_labelled};
