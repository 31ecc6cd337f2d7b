//! Parts of the program alone, so that scripts can measure their seconds and their memory: the reader of instances, the
//! store's rewrites, and maps beside a plain copy of their text.
//!
//! `command_of` says which words name which part. `read FILE` prints the sizes of the instance that the file denotes
//! (clauses of `sizes_of`); `store-far N` makes a store of N drawn clauses and `rewrites-far N` also applies N drawn
//! rewrites, each of them valid (clause `exact` of `change`), and both print what is left; with `near` the clauses have
//! variables close together and are rewritten in order of id; `map-write N` writes a valid map with N
//! repairs (clauses of `drawn_map`), `map-read FILE` reads one, and `map-copy FILE` copies a text token by token (clause
//! of `copied`). It stands on the library crates.
#![tactic(auto)]

mod command;
mod copying;
mod draws;
mod maps;
mod modes;
mod rewriting;
mod sizes;

use command::{Command, command_of};
use modes::Trouble;
use std::env;
use std::process::ExitCode;

fn main(rt: HostRuntime) -> ExitCode {
    let Ok(mut args) = env::args(&rt) else {
        return ExitCode::from(2);
    };
    let (Some(_), Some(mode), Some(word), None) = (
        args.next(),
        args.next(),
        args.next(),
        args.next(),
    ) else {
        return usage(rt);
    };
    let Some(command) = command_of(mode.as_str(), word.as_str()) else {
        return usage(rt);
    };
    match modes::run(rt, command) {
        Ok(()) => ExitCode::SUCCESS,
        Err(trouble) => explained(rt, trouble),
    }
}

fn usage(rt: HostRuntime) -> ExitCode {
    let _ = eprintln!(rt;
        "usage: yardstick read|map-read|map-copy FILE, or yardstick store-near|store-far|rewrites-near|rewrites-far|map-write N"
    );
    ExitCode::from(2)
}

fn explained(rt: HostRuntime, trouble: Trouble) -> ExitCode {
    let _ = eprintln!(rt; "yardstick: {trouble}");
    ExitCode::from(1)
}
