use crate::page::Page;
use case_text::Trouble;
use std::alloc::Global;

/// The calls that the cases of a table make, and what stands ready for them.
pub trait Calls {
    /// What a case begins with.
    fn begin(alloc: Global) -> Self;

    /// Makes the call of this name, and prints what it answers.
    fn call(
        &mut self,
        alloc: Global,
        name: &str,
        text: &str,
        page: &mut Page,
    ) -> Result<(), Trouble>;
}

/// Makes the calls of the lines in turn; each case begins anew.
pub fn run<C: Calls + Drop>(alloc: Global, lines: &str, page: &mut Page) -> Result<(), Trouble> {
    let mut calls = C::begin(alloc);
    for line in lines.lines() {
        let (name, text) = line.split_once(' ').unwrap_or((line, ""));
        if name == "case" {
            calls = C::begin(alloc);
            page.word(line);
            page.word("\n");
        } else {
            calls.call(alloc, name, text, page)?;
        }
    }
    Ok(())
}
