//! What the programs of cases have in common: the lines that cases are written in, and how bytes stand in them.
//!
//! A line is a key, a blank and what is given under the key. Bytes are given with escapes: `\n`, `\r`, `\t`, `\\`, and
//! `\xHH` with two lower hexadecimal digits for every byte that is not printable ASCII. It stands on `mp_text` and `mp_host`.
#![tactic(auto)]

mod desks;
mod escapes;
mod trouble;

pub use desks::{Desks, port_named};
pub use escapes::{put_escaped, unescaped};
pub use trouble::{Trouble, number};
