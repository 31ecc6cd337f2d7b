//! Bytes, tokens and numbers of texts, and the buffer that texts are built in. It stands on `mp_logic`, for lists and
//! want of memory, and on `itoa`.
//!
//! `Cursor` goes over the tokens of a text, `tokens_of` (`specs/Tokens`): by `tokens_are_slices` they are slices of it,
//! in order, each once, each with its line (`specs/Slices`). `natural` and `literal` answer `natural_of`, at most the
//! given number, and `literal_of` (`specs/Numbers`). `TextBuf` is a list of bytes that grows at its end; a number is put
//! there in `decimal`, and by `numbers_are_read_again` it is read again (`specs/Spelling`). `specs/Lines` says what a text
//! of lines of words is, and which line is the last (`last_line`); `specs/Writing` says how literals and clauses are
//! written.
#![tactic(auto)]

mod buffer;
mod cursor;
mod ends;
mod laws;
mod numbers;

pub use buffer::TextBuf;
pub use cursor::{Cursor, Token};
pub use ends::last_line;
pub use laws::{numbers_are_read_again, tokens_are_slices};
use mp_logic::ListOf;
pub use numbers::{LitToken, literal, natural};

/// A list of bytes.
pub type Bytes = ListOf<u8>;
