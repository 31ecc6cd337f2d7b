//! The store: how it is shown, rewritten by single literals and by techniques, and handed on.
ghost use Rattle.std.specs.Prelude.{◌≡◌, false};

use crate::page::Page;
use crate::words::{literal, small};
use case_text::{Trouble, number};
use mp_logic::{Clause, Limits, Lit, NoMemory};
use mp_store::{Ending, Ran, Rewrite, Store};
use std::alloc::Global;
use t_amo::at_most_ones;
use t_blocked::blocked;
use t_elim::eliminate;
use t_equiv::equivalences;
use t_failed::{failed, pairs};
use t_labels::{covered, group_covered};
use t_matching::{binary_cores, matched};
use t_subsume::{strengthen, subsume};
use t_units::units;

/// Prints what the store holds: its numbers, then its clauses by id, its costs by variable and its repairs.
pub fn show(store: &Store, page: &mut Page) {
    let counts = store.counts();
    page.number("store ", u128::from(store.vars()));
    page.number(" ids ", store.next_id() as u128);
    page.number(" offset ", store.offset());
    page.number(" counts ", u128::from(counts.clauses));
    page.number(" ", u128::from(counts.literals));
    page.number(" ", u128::from(counts.costs));
    page.word(if store.refuted() { " refuted\n" } else { "\n" });
    put_clauses(store, page);
    put_costs(store, page);
    put_repairs(store, page);
}

fn put_clauses(store: &Store, page: &mut Page) {
    for id in 0..store.next_id() {
        if store.live(id) {
            page.number("clause ", id as u128);
            page.literals(":", store.clause(id));
            page.word("\n");
        }
    }
}

fn put_costs(store: &Store, page: &mut Page) {
    for before in 0..store.vars() {
        for negative in [false, true] {
            let lit = Lit::new(before + 1, negative);
            let weight = store.weight(lit);
            if weight != 0 {
                page.literals("cost", &[lit]);
                page.number(" ", weight);
                page.word("\n");
            }
        }
    }
}

fn put_repairs(store: &Store, page: &mut Page) {
    for repair in store.repairs() {
        page.literals("repair", repair.sets.items());
        page.literals(" |", repair.clause.items());
        page.word("\n");
    }
}

/// Prints the ids of the clauses with each literal that has some.
pub fn put_occurrences(store: &Store, page: &mut Page) {
    for before in 0..store.vars() {
        for negative in [false, true] {
            let lit = Lit::new(before + 1, negative);
            put_ids(lit, store.occurrences(lit), page);
        }
    }
}

fn put_ids(lit: Lit, ids: &[usize], page: &mut Page) {
    if ids.is_empty() {
        return;
    }
    page.literals("with", &[lit]);
    page.word(":");
    for id in ids {
        page.number(" ", *id as u128);
    }
    page.word("\n");
}

/// `fix LITERAL`
pub fn fix_line(alloc: Global, store: &mut Store, text: &str) -> Result<(), Trouble> {
    fix(alloc, store, literal(text)?)
}

/// Fixes the literal, where the store is not refuted and has its variable; else the line is at fault.
pub fn fix(alloc: Global, store: &mut Store, lit: Lit) -> Result<(), Trouble> {
    if store.refuted() || lit.variable > store.vars() {
        return Err(Trouble::Line);
    }
    let mut lits = Clause::new(alloc);
    lits.push(lit)?;
    let rewrite = Rewrite::fixing(alloc, store, &lits)?;
    store.rewrite(rewrite)?;
    Ok(())
}

/// `technique LETTER [TURNS]`, with or without a budget.
pub fn run_line(
    alloc: Global,
    store: &mut Store,
    given: &str,
    page: &mut Page,
) -> Result<(), Trouble> {
    match given.split_once(' ') {
        Some((letter, turns)) => run(alloc, store, letter, Some(number(turns)?), page),
        None => run(alloc, store, given, None, page),
    }
}

/// Runs the technique of a letter on a store that is not refuted, and prints how it ended.
pub fn run(
    alloc: Global,
    store: &mut Store,
    letter: &str,
    budget: Option<u64>,
    page: &mut Page,
) -> Result<(), Trouble> {
    let technique = technique_of(letter)?;
    if store.refuted() {
        return Err(Trouble::Line);
    }
    put_ran(call(alloc, store, technique, budget)?, page);
    Ok(())
}

fn put_ran(ran: Ran, page: &mut Page) {
    page.word(match ran.ending {
        Ending::Finished => "finished",
        Ending::Spent => "spent",
        Ending::NoRoom => "no room",
    });
    page.word(if ran.changed { ", changed\n" } else { "\n" });
}

#[derive(Clone, Copy)]
enum Technique {
    Units,
    Subsume,
    Strengthen,
    Blocked,
    Eliminate,
    Equivalences,
    Covered,
    GroupCovered,
    Matched,
    BinaryCores,
    AtMostOnes,
    Failed,
    Pairs,
}

fn technique_of(letter: &str) -> Result<Technique, Trouble> {
    match letter {
        "u" => Ok(Technique::Units),
        "s" => Ok(Technique::Subsume),
        "r" => Ok(Technique::Strengthen),
        "b" => Ok(Technique::Blocked),
        "v" => Ok(Technique::Eliminate),
        "e" => Ok(Technique::Equivalences),
        "l" => Ok(Technique::Covered),
        "g" => Ok(Technique::GroupCovered),
        "m" => Ok(Technique::Matched),
        "c" => Ok(Technique::BinaryCores),
        "G" => Ok(Technique::AtMostOnes),
        "f" => Ok(Technique::Failed),
        "p" => Ok(Technique::Pairs),
        _ => Err(Trouble::Line),
    }
}

fn call(
    alloc: Global,
    store: &mut Store,
    technique: Technique,
    budget: Option<u64>,
) -> Result<Ran, NoMemory>
    requires { store.old.refuted ≡ false }
{
    match technique {
        Technique::Units => units(alloc, store, budget),
        Technique::Subsume => subsume(alloc, store, budget),
        Technique::Strengthen => strengthen(alloc, store, budget),
        Technique::Blocked => blocked(alloc, store, budget),
        Technique::Eliminate => eliminate(alloc, store, budget),
        Technique::Equivalences => equivalences(alloc, store, budget),
        Technique::Covered => covered(alloc, store, budget),
        Technique::GroupCovered => group_covered(alloc, store, budget),
        Technique::Matched => matched(alloc, store, budget),
        Technique::BinaryCores => binary_cores(alloc, store, budget),
        Technique::AtMostOnes => at_most_ones(alloc, store, budget),
        Technique::Failed => failed(alloc, store, budget),
        Technique::Pairs => pairs(alloc, store, budget),
    }
}

/// The store of the state that a store hands on.
pub fn handed_on(alloc: Global, store: Store) -> Result<Store, Trouble> {
    let (labelled, _) = store.into_labelled(alloc)?;
    let mut limits = Limits::program();
    limits.inner = labelled.vars;
    Ok(Store::from_labelled(alloc, labelled, &limits)?)
}

/// `signature ID`: that of a live clause.
pub fn put_signature(store: &Store, text: &str, page: &mut Page) -> Result<(), Trouble> {
    let id = small(text)? as usize;
    if !store.live(id) {
        return Err(Trouble::Line);
    }
    page.numbered("signature ", u128::from(store.signature(id)));
    Ok(())
}
