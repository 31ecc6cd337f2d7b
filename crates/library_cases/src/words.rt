//! What stands in a line behind its key.

use case_text::Trouble;
use mp_logic::{Assignment, Clause, Lit};
use std::alloc::Global;

/// The two parts of a text before and behind the first such sign.
pub fn parts(text: &str, sign: char) -> Result<(&str, &str), Trouble> {
    text.split_once(sign).ok_or(Trouble::Line)
}

/// A number of at most 32 bits.
pub fn small(text: &str) -> Result<u32, Trouble> {
    text.parse::<u32>().ok().ok_or(Trouble::Line)
}

/// A literal: a variable from 1, with a minus before it where it is negative.
pub fn literal(text: &str) -> Result<Lit, Trouble> {
    let digits = text.strip_prefix('-');
    let variable = small(digits.unwrap_or(text))?;
    if variable == 0 {
        return Err(Trouble::Line);
    }
    Ok(Lit::new(variable, digits.is_some()))
}

/// A clause: literals with blanks between them.
pub fn clause(alloc: Global, text: &str) -> Result<Clause, Trouble> {
    let mut made = Clause::new(alloc);
    for word in text.split_ascii_whitespace() {
        made.push(literal(word)?)?;
    }
    Ok(made)
}

/// An assignment: a digit for each variable, 1 where it is true.
pub fn values(alloc: Global, text: &str) -> Result<Assignment, Trouble> {
    let mut made = Assignment::new(alloc);
    for digit in text.as_bytes() {
        made.push(*digit == b'1')?;
    }
    Ok(made)
}
