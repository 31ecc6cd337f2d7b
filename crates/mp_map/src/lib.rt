//! Maps, which carry assignments of a written instance back to the original one, and the outputs of solvers. It stands
//! on `mp_logic` and `mp_text`.
//!
//! `entries` makes a map's entries out of the repairs of a run, and `entries_repair` is the law that they say the same.
//! `write_map` promises the one spelling of a valid map, and `read_map` the map of a spelling (`found`) or the line of
//! the first byte at fault (`refused`); `one_spelling` is the law that no two maps share one. `upgrade` answers the map of the
//! latest version, which carries back alike (`upgrade_carries`). `back` is `carried_back_by`. `read_solution` promises what a
//! text reports (`found`) or the lowest line at fault (`refused`), and `write_solution` the text of a solution. The
//! definitions are in `specs/Entries`, `specs/Maps`, `specs/Faults` and `specs/Solutions`; what words, lines and literals are
//! is said in `mp_text`.
#![tactic(auto)]

mod answering;
mod fields;
mod joining;
mod maps;
mod reading;
mod reconstruct;
mod reporting;
mod solutions;
mod spelling;
mod upgrading;
mod words;

pub use answering::write_solution;
pub use joining::entries;
pub use maps::{Entries, Entry, LATEST_VERSION, MapError, MapFile};
pub use reading::{one_spelling, read_map};
pub use reconstruct::{back, entries_repair, room};
pub use reporting::read_solution;
pub use solutions::{Answer, Solution, SolutionError, Values};
pub use spelling::write_map;
pub use upgrading::{upgrade, upgrade_carries};
