//! Queries to the solver as data: they come on standard input, and what each verdict is gets printed, once it is checked by
//! evaluation. The gate compares that with what is wanted.
//!
//! A line is a key, a blank and what is given under it. `case TEXT` is printed as it stands. `show QUERY` prints the verdict,
//! `kind QUERY` its first letter, `try QUERY` a dot, and `line` ends a line of letters; a verdict that fails its check prints
//! `!`. A query is `VARS BUDGET;ASSUMPTIONS;CLAUSES`, literals with blanks and clauses with commas between them.
//! `tests/solver_twin.py` writes input and output. It stands on `core_solver`.
#![tactic(auto)]

mod evaluation;
mod reading;

use case_text::Trouble;
use core_solver::{Query, Verdict, solve};
use evaluation::is_right;
use mp_logic::{Clause, NoMemory};
use mp_text::TextBuf;
use reading::{is_valid, query_of};
use std::alloc::Global;
use std::io;
use std::process::ExitCode;

fn main(rt: HostRuntime) -> ExitCode {
    let Ok(text) = io::read_to_string(rt.alloc(), rt.reader()) else {
        return ExitCode::from(3);
    };
    let mut printed = TextBuf::new(rt.alloc());
    let ended = run_lines(rt.alloc(), text.as_str(), &mut printed);
    if rt.stdout().write_all(printed.bytes()).is_err() {
        return ExitCode::from(4);
    }
    match ended {
        Ok(()) => ExitCode::SUCCESS,
        Err(trouble) => {
            let _ = eprintln!(rt; "solver_cases: {trouble}");
            ExitCode::FAILURE
        }
    }
}

fn run_lines(alloc: Global, text: &str, printed: &mut TextBuf) -> Result<(), Trouble> {
    for line in text.lines() {
        run_line(alloc, line, printed)?;
    }
    Ok(())
}

fn run_line(alloc: Global, line: &str, printed: &mut TextBuf) -> Result<(), Trouble> {
    let (key, given) = line.split_once(' ').unwrap_or((line, ""));
    match key {
        "case" => printed.word(line.as_bytes())?,
        "line" => {}
        _ => return answer(alloc, key, given, printed),
    }
    printed.word(b"\n")?;
    Ok(())
}

/// Answers a query, and prints what the key asks for.
fn answer(alloc: Global, key: &str, given: &str, printed: &mut TextBuf) -> Result<(), Trouble> {
    let query = query_of(alloc, given)?;
    if !is_valid(&query) {
        return Err(Trouble::Line);
    }
    let verdict = solve(alloc, &query)?;
    if !is_right(alloc, &query, &verdict)? {
        printed.word(b"!")?;
        return Ok(());
    }
    match key {
        "show" => show(printed, &verdict)?,
        "kind" => printed.word(kind(&verdict))?,
        "try" => printed.word(b".")?,
        _ => return Err(Trouble::Line),
    }
    Ok(())
}

fn kind(verdict: &Verdict) -> &'static [u8] {
    match verdict {
        Verdict::Model(_) => b"m",
        Verdict::Core(_) => b"c",
        Verdict::Unknown(_) => b"u",
    }
}

fn show(printed: &mut TextBuf, verdict: &Verdict) -> Result<(), NoMemory> {
    match verdict {
        Verdict::Model(_) => printed.word(b"model")?,
        Verdict::Core(core) => {
            printed.word(b"core")?;
            put_literals(printed, core)?;
        }
        Verdict::Unknown(learnt) => {
            printed.word(b"unknown ")?;
            printed.number(learnt.len() as u128)?;
        }
    }
    printed.word(b"\n")
}

fn put_literals(printed: &mut TextBuf, clause: &Clause) -> Result<(), NoMemory> {
    for lit in clause.items() {
        printed.word(if lit.negative { b" -" } else { b" " })?;
        printed.number(u128::from(lit.variable))?;
    }
    Ok(())
}
