//! Techniques that ask an oracle, over one whose answers a case can tell: it tries given assignments first.
ghost use Rattle.std.specs.Prelude.{◌≡◌, false, IfOk, IsTrue};
ghost use Rattle.std.specs.List.{list_all};
ghost use Rattle.mp_logic.specs.Truth.{clause_value, literal_value};
ghost use Rattle.core_solver.specs.Verdicts.{IsQuery, IsRightVerdict};
ghost use Rattle.core_solver.specs.declared.query.Verdict.TheVariants.{Model};

use crate::page::Page;
use crate::words::{parts, small, values};
use case_text::Trouble;
use core_solver::{Query, Verdict, solve};
use mp_logic::{Assignment, Clause, Clauses, ListOf, NoMemory, holds, satisfies};
use mp_store::Store;
use std::alloc::Global;
use t_probe::{Oracle, ProbeEnding, Probed, harden, pair_cores, trim};

/// `probe LETTER BUDGET ASSIGNMENT..`: the technique of the letter, whose oracle tries the assignments.
pub fn probe_line(
    alloc: Global,
    store: &mut Store,
    given: &str,
    page: &mut Page,
) -> Result<(), Trouble> {
    let (letter, rest) = parts(given, ' ')?;
    let (budget, words) = rest.split_once(' ').unwrap_or((rest, ""));
    let mut tried = ListOf::new(alloc);
    for word in words.split_ascii_whitespace() {
        tried.push(values(alloc, word)?)?;
    }
    probe(alloc, store, letter, small(budget)?, tried.items(), page)
}

/// Runs the technique of a letter on a store that is not refuted, and prints how it ended.
pub fn probe(
    alloc: Global,
    store: &mut Store,
    letter: &str,
    budget: u32,
    tried: &[Assignment],
    page: &mut Page,
) -> Result<(), Trouble> {
    let technique = probe_of(letter)?;
    if store.refuted() {
        return Err(Trouble::Line);
    }
    put_probed(&ask(alloc, store, technique, budget, tried)?, page);
    Ok(())
}

fn put_probed(probed: &Probed, page: &mut Page) {
    match &probed.ending {
        ProbeEnding::Finished => page.word("finished"),
        ProbeEnding::Spent { .. } => page.word("spent"),
        ProbeEnding::Bound(bound) => page.number("bound ", *bound),
    }
    page.word(if probed.changed { ", changed\n" } else { "\n" });
}

#[derive(Clone, Copy)]
enum Probing {
    Trim,
    PairCores,
    Harden,
}

fn probe_of(letter: &str) -> Result<Probing, Trouble> {
    match letter {
        "T" => Ok(Probing::Trim),
        "K" => Ok(Probing::PairCores),
        "H" => Ok(Probing::Harden),
        _ => Err(Trouble::Line),
    }
}

fn ask(
    alloc: Global,
    store: &mut Store,
    technique: Probing,
    budget: u32,
    tried: &[Assignment],
) -> Result<Probed, NoMemory>
    requires { store.old.refuted ≡ false }
{
    let oracle = Oracle::new(
        |alloc: Global, query: &Query| -> Result<Verdict, NoMemory>
            requires { IsQuery query.now }
            ensures { IfOk result (λ verdict. IsRightVerdict query.now verdict) }
        { answer(alloc, tried, query) },
    );
    match technique {
        Probing::Trim => trim(alloc, store, &oracle, budget),
        Probing::PairCores => pair_cores(alloc, store, &oracle, budget),
        Probing::Harden => harden(alloc, store, &oracle, budget),
    }
}

// The first assignment that meets the query, and otherwise what the solver answers. Where assignments are given, a core is all
// of the assumptions, so that nothing that is printed rests on how the solver searches.
fn answer(alloc: Global, tried: &[Assignment], query: &Query) -> Result<Verdict, NoMemory>
    requires { IsQuery query.now }
    ensures { IfOk result (λ verdict. IsRightVerdict query.now verdict) }
{
    for a in tried {
        if meets(query, a) {
            return Ok(Verdict::Model(a.copy(alloc)?));
        }
    }
    if tried.is_empty() {
        return solve(alloc, query);
    }
    match solve(alloc, query)? {
        Verdict::Core(_) => Ok(Verdict::Core(query.assumptions.copy(alloc)?)),
        verdict => Ok(verdict),
    }
}

fn meets(query: &Query, a: &Assignment) -> bool
    ensures { IsTrue result → IsRightVerdict query.now (Model a.now) }
{
    a.len() == query.vars as usize
        && are_satisfied(&query.hard, a)
        && are_true(&query.assumptions, a)
}

fn are_satisfied(clauses: &Clauses, a: &Assignment) -> bool
    ensures { result ≡ list_all (clause_value a.now) clauses.now }
{
    clauses.items().iter().all(|clause| satisfies(clause, a))
}

fn are_true(lits: &Clause, a: &Assignment) -> bool
    ensures { result ≡ list_all (literal_value a.now) lits.now }
{
    lits.items().iter().all(|lit| holds(*lit, a))
}
