//! The outside as the program sees it: the trait `Host`, with a desk in memory that tells all (`Desk`), one that tells
//! little and never fails (`QuietDesk`) and the real files and streams (`RealHost`), and the two calls that read a file
//! whole and write a text whole. It stands on `mp_logic` and `mp_text`.
//!
//! `read_all` promises the bytes of the file (`whole`, `fits`, `long`), and `write_all` that just the bytes went out, or
//! the first of them (`whole`, `part`). A fault is answered only where the host's count of faults rose (`fault`). What a
//! host means is the record `World` of `specs/World`.
#![tactic(auto)]

mod desk;
mod files;
mod host;
mod quiet;
mod real;
mod whole;

pub use desk::Desk;
pub use host::{Failed, Host, Port};
pub use quiet::QuietDesk;
pub use real::RealHost;
pub use whole::{ReadAllError, WriteFault, read_all, write_all};
