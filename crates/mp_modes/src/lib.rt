//! What the program `maxpre` does: the modes, the exit statuses, and the top call over any host, which the program makes over
//! the real one.
//!
//! It promises, as clauses of `top::maxpre`, that a run ends as its words say (`Answers` of `specs/Commands`): techniques that
//! are no script are refused; else the inputs of the mode are read in order up to the first that is at fault
//! (`specs/Inputs`), or steps that are right for their texts are done in order until one fails (`Ends` of `specs/Running`,
//! `specs/Traces`); how many host calls failed (`IsSeen`); and that a sound request fails only for want of memory
//! (`specs/Completeness`). What is right for each mode is in `specs/Preprocessing` with `specs/EndStates`,
//! `specs/Reconstructing`, `specs/Evaluating`, `specs/UpgradeMode` and `specs/WorkloadMode`. It stands on all library crates.
#![tactic(auto)]

pub mod evaluate;
pub mod inputs;
mod instances;
mod laws;
pub mod limits;
pub mod outputs;
pub mod preprocess;
mod presenting;
pub mod reconstruct;
pub mod refusal;
pub mod status;
pub mod top;
pub mod upgrade;
pub mod workload;

pub use mp_words::Words;
