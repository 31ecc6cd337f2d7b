//! Techniques that ask an oracle, a closure that answers queries as the solver does: trimming, pair cores and hardening.
//!
//! `Oracle` keeps a closure whose verdicts are right (`IsSound`, `specs/Oracles`). `trim`, `pair_cores` and `harden` change a
//! store on its word alone. They promise `run`, the clause of every technique (`specs/Techniques` of `mp_store`), and
//! `answer` (`IsProbed`, `specs/Asking`), with their own parts in `specs/Trimming`, `specs/PairCores` and
//! `specs/Hardening`; where a call stands between its questions is in `specs/Underway`. They stand on `mp_logic`,
//! `mp_labels`, `mp_clauses`, `mp_store`, `mp_turns` and `core_solver`.
#![tactic(auto)]

mod changes;
mod covers;
mod hardening;
mod oracle;
mod pairs;
mod probed;
mod questions;
mod trimming;

pub use hardening::harden;
pub use oracle::Oracle;
pub use pairs::pair_cores;
pub use probed::{ProbeEnding, Probed};
pub use trimming::trim;
