//! Calls of the libraries as data: cases come on standard input, their lines are calls in turn, and what each answers is
//! printed. The gate compares that with what is wanted, so that a further case costs no proof.
//!
//! `tests/cases.py` makes the input and what is wanted out of the tables in `tests/library_cases`; the four `impl Calls` say
//! which calls there are. It stands on the libraries below the modes.
#![tactic(auto)]

mod calls;
mod draws;
mod files;
mod formats;
mod given;
mod held;
mod logic;
mod page;
mod probes;
mod stores;
mod texts;
mod words;
mod work;

use calls::run;
use case_text::{Desks, Trouble};
use given::Given;
use held::Held;
use page::Page;
use std::alloc::Global;
use std::io;
use std::process::ExitCode;
use work::Work;

fn main(rt: HostRuntime) -> ExitCode {
    let Ok(text) = io::read_to_string(rt.alloc(), rt.reader()) else {
        return ExitCode::from(3);
    };
    let mut page = Page::new(rt.alloc());
    let ended = run_tables(rt.alloc(), text.as_str(), &mut page);
    if rt.stdout().write_all(page.text.bytes()).is_err() {
        return ExitCode::from(4);
    }
    match ended {
        Ok(()) => ExitCode::SUCCESS,
        Err(trouble) => {
            let _ = eprintln!(rt; "library_cases: {trouble}");
            ExitCode::FAILURE
        }
    }
}

/// Makes the calls of the tables in turn. A table begins with its name, behind an `@`.
fn run_tables(alloc: Global, text: &str, page: &mut Page) -> Result<(), Trouble> {
    for table in text.split('@') {
        if let Some((name, lines)) = table.split_once('\n') {
            run_table(alloc, name, lines, page)?;
        }
    }
    if page.is_whole {
        return Ok(());
    }
    Err(Trouble::NoMemory)
}

fn run_table(alloc: Global, name: &str, lines: &str, page: &mut Page) -> Result<(), Trouble> {
    match name {
        "queues" => run::<Work>(alloc, lines, page),
        "stores" | "techniques" | "drawn" => run::<Held>(alloc, lines, page),
        "files" => run::<Desks>(alloc, lines, page),
        _ => run::<Given>(alloc, lines, page),
    }
}
