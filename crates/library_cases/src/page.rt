use case_text::{Trouble, put_escaped};
use mp_logic::Lit;
use mp_text::TextBuf;
use std::alloc::Global;
use std::fmt::Display;

/// What is printed. Where memory is refused something is left out, and the page is not whole from then on.
#[derive(Drop)]
pub struct Page {
    pub text: TextBuf,
    pub is_whole: bool,
}

impl Page {
    /// The empty page.
    pub fn new(alloc: Global) -> Page {
        Page {
            text: TextBuf::new(alloc),
            is_whole: true,
        }
    }

    /// Puts a text last.
    pub fn word(&mut self, text: &str) {
        let taken = self.text.word(text.as_bytes());
        self.is_whole &= taken.is_ok();
    }

    /// Puts a text and a number last.
    pub fn number(&mut self, before: &str, number: u128) {
        self.word(before);
        let taken = self.text.number(number);
        self.is_whole &= taken.is_ok();
    }

    /// Puts a line last: a text and a number.
    pub fn numbered(&mut self, before: &str, number: u128) {
        self.number(before, number);
        self.word("\n");
    }

    /// Puts a text and bytes with escapes last.
    pub fn escaped(&mut self, before: &str, bytes: &[u8]) {
        self.word(before);
        let taken = put_escaped(&mut self.text, bytes);
        self.is_whole &= taken.is_ok();
    }

    /// Puts a text and literals last, each literal with a blank before it.
    pub fn literals(&mut self, before: &str, lits: &[Lit]) {
        self.word(before);
        for lit in lits {
            self.number(
                if lit.negative { " -" } else { " " },
                u128::from(lit.variable),
            );
        }
    }

    /// Puts a line last: why something was refused.
    pub fn refusal<E: Display>(&mut self, alloc: Global, error: &E) -> Result<(), Trouble> {
        let reason = format!(in alloc; "refused: {error}\n").map_err(|_| Trouble::NoMemory)?;
        self.word(reason.as_str());
        Ok(())
    }
}
