//! Whole runs of maxpre as data: cases come on standard input, each is run by the top call over a desk in memory, and what
//! it leaves is printed. The gate compares that with what is wanted, so that a further case costs no proof.
//!
//! `tests/cases.py` makes the input and what is wanted out of the tables in `tests/cases`; `Stage::take` says which lines a
//! case has. It stands on `mp_modes`, whose top call it makes.
#![tactic(auto)]

mod stage;

use case_text::Trouble;
use mp_text::TextBuf;
use stage::Stage;
use std::alloc::Global;
use std::io;
use std::process::ExitCode;

fn main(rt: HostRuntime) -> ExitCode {
    let Ok(text) = io::read_to_string(rt.alloc(), rt.reader()) else {
        return ExitCode::from(3);
    };
    let mut printed = TextBuf::new(rt.alloc());
    let ended = run_cases(rt.alloc(), text.as_str(), &mut printed);
    if rt.stdout().write_all(printed.bytes()).is_err() {
        return ExitCode::from(4);
    }
    match ended {
        Ok(()) => ExitCode::SUCCESS,
        Err(trouble) => {
            let _ = eprintln!(rt; "cases: {trouble}");
            ExitCode::FAILURE
        }
    }
}

/// Runs the cases of a text in turn, and prints what each leaves.
fn run_cases(alloc: Global, text: &str, printed: &mut TextBuf) -> Result<(), Trouble> {
    let mut stage = Stage::new(alloc);
    run_lines(alloc, &mut stage, text, printed)
}

fn run_lines(
    alloc: Global,
    stage: &mut Stage,
    text: &str,
    printed: &mut TextBuf,
) -> Result<(), Trouble> {
    for line in text.lines() {
        run_line(alloc, stage, line, printed)?;
    }
    Ok(())
}

/// Takes a line; after a run all begins anew.
fn run_line(
    alloc: Global,
    stage: &mut Stage,
    line: &str,
    printed: &mut TextBuf,
) -> Result<(), Trouble> {
    let (key, given) = line.split_once(' ').unwrap_or((line, ""));
    match key {
        "case" => {
            printed.word(line.as_bytes())?;
            printed.word(b"\n")?;
        }
        "run" => {
            stage.run(alloc, printed)?;
            *stage = Stage::new(alloc);
        }
        _ => stage.take(alloc, key, given)?,
    }
    Ok(())
}
