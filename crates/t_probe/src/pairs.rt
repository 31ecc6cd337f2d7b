//! Pair cores. Where no model makes two labels false together, one of them is paid for in each model: the clause that says so
//! is added, which no model breaks. It is asked of the oracle for each pair that no clause says already; each model found
//! spares the questions about all pairs that it makes false. With its clauses, core removal and at-most-ones find these pairs.
//!
//! The hard clauses of the query are made once a call, and each clause that is added is put into them. For each label the
//! models found so far leave those labels behind it that still wait; a clause for a pair is looked for in the occurrence
//! lists of its labels.
ghost use Rattle.std.specs.Prelude.{◌≡◌, ◌⊎◌, ◌||◌, ◌<◌, ◌+◌, [], ◌∷◌, IfOk, OnOk, Contains, false, length, drop, slice_index_or};
ghost use Rattle.mp_logic.specs.Literal.{Literal};
ghost use Rattle.mp_logic.specs.Sets.{Implies, Among};
ghost use Rattle.mp_clauses.specs.Slots.{live_clauses};
ghost use Rattle.mp_store.specs.Measures.{is_covered};
ghost use Rattle.mp_store.specs.Techniques.{IsRun};
ghost use Rattle.t_probe.specs.Asking.{IsProbed};
ghost use Rattle.t_probe.specs.Oracles.{IsSound, MayAnswer};
ghost use Rattle.t_probe.specs.PairCores.{pair_core_search};
ghost use Rattle.t_probe.specs.Underway.{IsAbout, IsLabel, IsPairTurn, IsPairStep, AreAnswered, AreModels, IsRow};

use crate::changes::{add, refute};
use crate::covers::is_covered;
use crate::oracle::Oracle;
use crate::probed::{ProbeEnding, Probed};
use crate::questions::{Asked, assume_false, keep_true, labels_of, query_for, take_last, turned};
use core_solver::{Query, Verdict};
use mp_logic::{Assignment, Clause, Clauses, Lit, NoMemory, holds};
use mp_store::Store;
use std::alloc::Global;

/// What the questions about one label and those behind it came to.
#[derive(Drop)]
struct Row {
    unknown: Option<Clauses>,
    changed: bool,
}

/// Adds the clause of each pair of labels that no model makes false together, in order; `budget` is how many clauses the
/// oracle may learn for one question. Finished where the labels of each pair that no clause covers are both false in some
/// model, or the hard clauses are refuted, Spent at the first question that the oracle cannot answer. Its one error is want
/// of memory.
pub fn pair_cores<F: Fn(Global, &Query) -> Result<Verdict, NoMemory>>(
    alloc: Global,
    store: &mut Store,
    oracle: &Oracle<F>,
    budget: u32,
) -> Result<Probed, NoMemory>
    requires unrefuted { store.old.refuted ≡ false }
    requires sound { IsSound F.pre F.post oracle.now }
    ensures run { IsRun pair_core_search.LeavesAlone store.old store.new }
    ensures answer { IfOk result (λ p. IsProbed pair_core_search (MayAnswer F.post oracle.now) budget store.old store.new p) }
{
    // what holds of each store
    let _ = store.vars();
    let begun = query_for(alloc, store, budget)?;
    let labels = labels_of(alloc, &begun.costs)?;
    let mut query = begun.query;
    let labels = labels.as_slice();
    let mut models = Vec::new(alloc);
    let mut changed = false;
    'labels: for place in 0..labels.len() {
        let lit = label_at(labels, place);
        let behind = labels_behind(labels, place);
        let row = ask_row(alloc, store, oracle, &mut query, lit, behind, &mut models)?;
        changed = either(changed, row.changed);
        let unknown = row.unknown;
        if let Some(learnt) = unknown {
            return Ok(Probed {
                ending: ProbeEnding::Spent { query, learnt },
                changed,
            });
        }
        if store.refuted() {
            return Ok(Probed {
                ending: ProbeEnding::Finished,
                changed,
            });
        }
    }
    Ok(Probed {
        ending: ProbeEnding::Finished,
        changed,
    })
}

/// Whether something changed before or in the row.
fn either(before: bool, now: bool) -> bool
    ensures { result ≡ (before || now) }
{
    before || now
}

fn label_at(labels: &[Lit], place: usize) -> Lit
    requires { place < length labels.now }
    ensures { result ≡ slice_index_or labels.now place result }
{
    labels[place]
}

fn labels_behind(labels: &[Lit], place: usize) -> &[Lit]
    requires { place < length labels.now }
    ensures { result.now ≡ drop (place + 1) labels.now }
{
    &labels[place + 1..]
}

/// Asks about a label together with each one behind it.
fn ask_row<F: Fn(Global, &Query) -> Result<Verdict, NoMemory>>(
    alloc: Global,
    store: &mut Store,
    oracle: &Oracle<F>,
    query: &mut Query,
    lit: Lit,
    behind: &[Lit],
    models: &mut Vec<Assignment>,
) -> Result<Row, NoMemory>
    requires unrefuted { store.old.refuted ≡ false }
    requires sound { IsSound F.pre F.post oracle.now }
    requires about { IsAbout store.old query.old }
    requires first { IsLabel store.old lit }
    requires behind { (m : Literal) → Contains behind.now m → IsLabel store.old m × (lit.variable < m.variable) }
    requires models { AreModels models.old.items store.old }
    ensures run { IsRun pair_core_search.LeavesAlone store.old store.new }
    ensures row { IfOk result (λ row. IsRow (MayAnswer F.post oracle.now) lit behind.now store.old store.new query.new models.new.items row) }
    ensures budget { query.new.budget ≡ query.old.budget }
{
    // what holds of each store
    let _ = store.vars();
    let mut waiting = partners(alloc, behind, lit, models)?;
    let mut changed = false;
    'partners: while let Some(other) = take_last(&mut waiting) {
        if is_covered(store, lit, other) {
            continue;
        }
        let asked = ask_pair(alloc, store, oracle, query, lit, other)?;
        match asked {
            Asked::Found(model) => {
                keep_true(&mut waiting, &model);
                models.push(model)?;
            }
            Asked::Changed => {
                changed = true;
                if store.refuted() {
                    return Ok(Row {
                        unknown: None,
                        changed,
                    });
                }
            }
            Asked::Unknown(learnt) => {
                return Ok(Row {
                    unknown: Some(learnt),
                    changed,
                });
            }
        }
    }
    Ok(Row {
        unknown: None,
        changed,
    })
}

/// The labels behind one, the first of them last, without those that one of the models makes false together with it.
fn partners(
    alloc: Global,
    behind: &[Lit],
    lit: Lit,
    models: &[Assignment],
) -> Result<Vec<Lit>, NoMemory>
    ensures from { IfOk result (λ made. Among made.items behind.now) }
    ensures others { IfOk result (λ made. (m : Literal) → Contains behind.now m → Contains made.items m ⊎ AreAnswered models.now lit m) }
{
    let mut made = turned(alloc, behind)?;
    for model in models {
        leave_true(&mut made, lit, model);
    }
    Ok(made)
}

/// Where the model makes the literal false, keeps those that it makes true.
fn leave_true(lits: &mut Vec<Lit>, lit: Lit, model: &Assignment)
    ensures from { Among lits.new.items lits.old.items }
    ensures others { (m : Literal) → Contains lits.old.items m → Contains lits.new.items m ⊎ AreAnswered (model.now ∷ []) lit m }
{
    if holds(lit, model) {
        return;
    }
    keep_true(lits, model);
}

/// Asks whether two labels can be false together, and adds the clause of the pair where they can't.
fn ask_pair<F: Fn(Global, &Query) -> Result<Verdict, NoMemory>>(
    alloc: Global,
    store: &mut Store,
    oracle: &Oracle<F>,
    query: &mut Query,
    lit: Lit,
    other: Lit,
) -> Result<Asked, NoMemory>
    requires unrefuted { store.old.refuted ≡ false }
    requires sound { IsSound F.pre F.post oracle.now }
    requires about { IsAbout store.old query.old }
    requires first { IsLabel store.old lit }
    requires second { IsLabel store.old other }
    requires order { lit.variable < other.variable }
    requires uncovered { is_covered (live_clauses store.old.slots) lit other ≡ false }
    ensures run { IsRun pair_core_search.LeavesAlone store.old store.new }
    ensures turned { IfOk result (λ asked. IsPairTurn (MayAnswer F.post oracle.now) lit other store.old store.new query.new asked) }
    ensures budget { query.new.budget ≡ query.old.budget }
{
    // what holds of each store puts the literals within its variables
    let _ = store.vars();
    assume_false(query, &[lit, other])?;
    let verdict = oracle.ask(alloc, query)?;
    match verdict {
        Verdict::Model(model) => Ok(Asked::Found(model)),
        Verdict::Core(core) => {
            cover(alloc, store, query, lit, other, &core)?;
            Ok(Asked::Changed)
        }
        Verdict::Unknown(learnt) => Ok(Asked::Unknown(learnt)),
    }
}

/// Adds the clause of a pair that no model makes false together; an empty core refutes the store.
fn cover(
    alloc: Global,
    store: &mut Store,
    query: &mut Query,
    lit: Lit,
    other: Lit,
    core: &Clause,
) -> Result<(), NoMemory>
    requires unrefuted { store.old.refuted ≡ false }
    requires about { IsAbout store.old query.old }
    requires first { IsLabel store.old lit }
    requires second { IsLabel store.old other }
    requires order { lit.variable < other.variable }
    requires uncovered { is_covered (live_clauses store.old.slots) lit other ≡ false }
    requires implied { Implies (live_clauses store.old.slots) (lit ∷ (other ∷ [])) }
    requires core { core.now ≡ [] → Implies (live_clauses store.old.slots) [] }
    ensures run { IsRun pair_core_search.LeavesAlone store.old store.new }
    ensures step { OnOk result (IsPairStep lit other store.old store.new) }
    ensures about { OnOk result (store.new.refuted ≡ false → IsAbout store.new query.new) }
    ensures budget { query.new.budget ≡ query.old.budget }
{
    let _ = store.vars();
    if core.items().is_empty() {
        refute(alloc, store)?;
        return Ok(());
    }
    let pair = pair_of(alloc, lit, other)?;
    let copy = pair.copy(alloc)?;
    add(alloc, store, pair)?;
    query.hard.push(copy)?;
    Ok(())
}

/// The clause of two literals.
fn pair_of(alloc: Global, lit: Lit, other: Lit) -> Result<Clause, NoMemory>
    ensures { IfOk result (λ made. made ≡ lit ∷ (other ∷ [])) }
{
    let mut pair = Clause::new(alloc);
    pair.push(lit)?;
    pair.push(other)?;
    Ok(pair)
}
